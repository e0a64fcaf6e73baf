// What is known of the refusals of cards, written by hand and drawn. The cases are made by tests/make_data.py, the expected output by
// tests/expected/test_card_details.py.
#![tactic(auto)]

use test_buffers::between;
use test_cases::length_at;

// Prints the lines of one number, with a name and with one of 106 bytes, where there is one.
fn of(rt: &HostRuntime, book: &[u8], sheet: &[u8], card: &[u8], number: u32) {
    let text = card_details::card_detail(b"card.wcd", book, sheet, card, number);
    if text.len != 0 {
        test_printing::line(rt, b"of", number as u64);
        file_io::print(rt, text);
        let name =
            b"nnnnnnnnnnnnnnnnnnnnnnnnnnnnnnnnnnnnnnnnnnnnnnnnnnnnnnnnnnnnnnnnnnnnnnnnnnnnnnnnnnnnnnnnnnnnnnnnnnname.wcd";
        file_io::print(
            rt,
            card_details::card_detail(name, book, sheet, card, number),
        );
    }
}

// The number that refuses a book, a sheet and a card.
fn refusal_of(book: &[u8], sheet: &[u8], card: &[u8]) -> u64 {
    let mut shares = [0u16; 256];
    test_printing::refusal_number(card::check_card(book, sheet, card, &mut shares))
}

// Prints the number that refuses a book, a sheet and a card, and the lines of all numbers.
fn told(rt: &HostRuntime, book: &[u8], sheet: &[u8], card: &[u8]) {
    test_printing::line(rt, b"refusal", refusal_of(book, sheet, card));
    for number in 0..60 {
        of(rt, book, sheet, card, number);
    }
}

// The case at `start`: three bytes of length for the book, the sheet and the card, then the three. Gives back where the next case starts.
fn case(rt: &HostRuntime, cases: &[u8], start: usize) -> usize {
    let at = start % 4000000;
    let book = at + 9;
    let sheet = book + length_at(cases, at);
    let card = sheet + length_at(cases, at + 3);
    let end = card + length_at(cases, at + 6);
    told(
        rt,
        between(cases, book, sheet),
        between(cases, sheet, card),
        between(cases, card, end),
    );
    end
}

// The cases of a file.
fn run(rt: &HostRuntime, cases: &[u8]) {
    test_cases::each(rt, cases, 400, case);
}

fn main(rt: HostRuntime) {
    test_cases::with_file::<134000, _>(&rt, b"cases.dat", run);
}
