// Searches worked over by moves, for calls written by hand and drawn. The cases are made by tests/workings.py, the expected output by
// tests/expected/test_worked.py.
#![tactic(auto)]

use method::Released;
use test_buffers::{between, byte_at, u16_at};

// The 4-byte number at `at`.
fn u32_at(cases: &[u8], at: usize) -> u32 {
    (u16_at(cases, at) + 65536 * u16_at(cases, at % 1000000 + 2)) as u32
}

// The released set at `at`: whether the call is limited to it, a byte of no meaning, then its bits.
fn set_at(cases: &[u8], at: usize) -> Released {
    let mut boats = [0u8; 32];
    for i in 0..32 {
        boats[i] = byte_at(cases, at % 1000000 + 2 + i);
    }
    Released {
        limited: byte_at(cases, at) == 1,
        boats,
    }
}

// Prints the number by which the check refuses a card, 0 where it accepts it.
fn checked(rt: &HostRuntime, book: &[u8], sheet: &[u8], set: Released, filed: &[u8]) {
    let mut slots = [7u16; 256];
    let found = card::check_card_with(book, sheet, set, None, filed, &mut slots);
    test_printing::line(rt, b"checked", test_printing::refusal_number(found));
}

// A search worked over into the first `room` bytes of a buffer, all of them where it has fewer. Prints what the call gives back, and gives back
// the length of the card.
fn worked(
    rt: &HostRuntime,
    book: &[u8],
    sheet: &[u8],
    set: Released,
    moves: u32,
    buffer: &mut [u8],
    room: usize,
) -> usize {
    if buffer.len() < room {
        return test_card_printing::print_filed(
            rt,
            worked_card::work_over(book, sheet, set, moves, buffer),
        );
    }
    let start = 0;
    test_card_printing::print_filed(
        rt,
        worked_card::work_over(book, sheet, set, moves, &mut buffer[start..room]),
    )
}

// A call, its card checked, and a sum of the buffer's bytes.
fn run(rt: &HostRuntime, book: &[u8], sheet: &[u8], set: Released, moves: u32, room: usize) {
    let mut buffer = [9u8; 1080];
    let n = worked(rt, book, sheet, set, moves, &mut buffer, room);
    if 0 < n {
        checked(rt, book, sheet, set, between(&buffer, 0, n));
    }
    test_printing::line(rt, b"sum", test_buffers::checksum(&buffer));
}

// The case at `start`: the lengths of the book and the sheet in 2 bytes each, the moves in 4, the buffer's length in 2, the set, then the book and
// the sheet. Gives back where the next case starts.
fn case(rt: &HostRuntime, cases: &[u8], start: usize) -> usize {
    let at = start % 1000000;
    let book = at + 44;
    let sheet = book + u16_at(cases, at) as usize;
    let end = sheet + u16_at(cases, at + 2) as usize;
    run(
        rt,
        between(cases, book, sheet),
        between(cases, sheet, end),
        set_at(cases, at + 10),
        u32_at(cases, at + 4),
        u16_at(cases, at + 8) as usize,
    );
    end
}

// Each case of a file.
fn each(rt: &HostRuntime, cases: &[u8], count: u64) {
    let mut at = 0;
    for number in 0..count {
        test_printing::line(rt, b"case", number);
        at = case(rt, cases, at);
    }
}

// mixwork in a folder, and the card that stands there afterwards.
fn folder(rt: &HostRuntime, name: &[u8], moves: u32) {
    let mut card = [0u8; 40001];
    test_printing::title(rt, name);
    work_folder::file_worked(rt, name, moves);
    let n = file_io::read_in(rt, name, b"worked.wcd", &mut card);
    test_printing::line(rt, b"bytes", n as u64);
    test_printing::line(rt, b"sum", test_buffers::checksum(&card[..n]));
}

// mixwork in all folders.
fn folders(rt: &HostRuntime) {
    folder(rt, b"", 1000);
    folder(rt, b"older", 1000);
    folder(rt, b"one_move", 1);
    folder(rt, b"two_moves", 2);
    folder(rt, b"all_moves", 1000);
    folder(rt, b"factors", 1000);
    folder(rt, b"no_moves", 0);
    folder(rt, b"too_many_moves", 1001);
    folder(rt, b"within", 1000);
    folder(rt, b"within_and_no_moves", 0);
    folder(rt, b"sheet_refused", 0);
    folder(rt, b"book_refused", 1);
    folder(rt, b"no_book", 1);
    folder(rt, b"no_sheet", 1);
    folder(rt, b"longest_sheet", 1000);
    folder(rt, b"too_long", 1000);
}

// All of it; the cases are read into this buffer.
fn all(rt: &HostRuntime, buffer: &mut [u8]) {
    let n = file_io::read_file(rt, b"cases.dat", buffer);
    each(rt, file_io::first_bytes(buffer, n), 400);
    folders(rt);
}

fn main(rt: HostRuntime) {
    let mut cases = [0u8; 112000];
    all(&rt, &mut cases);
}
