// Cards of drawn fleet books and sheets, written, checked, damaged and checked again.
// The expected output is made by tests/expected/test_card.py.
#![tactic(auto)]

use test_samples::Part;

// Checks a card with a list of 10 slots that hold 7, and prints the list.
fn checked(rt: &HostRuntime, book: &[u8], sheet: &[u8], filed: &[u8]) {
    let mut slots = [7u16; 10];
    test_printing::searched(rt, card::check_card(book, sheet, filed, &mut slots));
    test_printing::slots(rt, &slots, 10);
}

// The card of two files in a buffer of `room` bytes, written, checked, damaged and checked.
fn run(rt: &HostRuntime, book: &[u8], sheet: &[u8], room: usize, seed: &mut u64) {
    let mut buffer = [9u8; 80];
    let len = test_card_printing::written(rt, book, sheet, &mut buffer, room);
    test_printing::line(rt, b"sum", test_buffers::checksum(&buffer));
    checked(rt, book, sheet, test_buffers::between(&buffer, 0, len));
    let part = test_samples::damage(&mut buffer, len, seed);
    checked(
        rt,
        book,
        sheet,
        test_buffers::between(&buffer, part.start, part.end),
    );
}

// One drawn case. One buffer in six may be too short.
fn one(rt: &HostRuntime, seed: &mut u64, number: u64) {
    let mut book = [0u8; 256];
    let mut sheet = [0u8; 128];
    test_printing::line(rt, b"case", number);
    let plan = test_samples::draw_plan(seed);
    let placed = test_samples::put_book(&mut book, seed, plan);
    let rows = placed.rows;
    let end = placed.end;
    let tolerance = test_samples::draw(seed, 1000);
    let m = test_samples::put_sheet(&mut sheet, seed, plan, &book, rows, tolerance);
    let short = test_samples::draw(seed, 6);
    let room = if short == 0 { 44 } else { 80 };
    run(
        rt,
        test_buffers::between(&book, 0, end),
        test_buffers::between(&sheet, 0, m),
        room,
        seed,
    );
}

fn main(rt: HostRuntime) {
    let mut seed = 8;
    for number in 0..2000 {
        one(&rt, &mut seed, number);
    }
}
