// The better of two cards for pairs written by hand and drawn: near one another, equal, behind front text, damaged, with factors.
// The file of cases is made by tests/pairs.py, the expected output by tests/expected/test_better.py.
#![tactic(auto)]

use test_buffers::{between, u16_at};

// Prints what is left in the lent number and what is handed back, then the choice as numbers.
fn chosen<'a>(rt: &HostRuntime, book: &[u8], sheet: &[u8], first: &'a [u8], second: &'a [u8]) {
    let mut number = 77;
    let part = better_card::better_card(book, sheet, first, second, &mut number);
    test_printing::line(rt, b"number", number as u64);
    test_printing::line(rt, b"bytes", part.len() as u64);
    test_printing::line(rt, b"sum", test_buffers::checksum(part));
    let choice = better_card::choose(book, sheet, first, second);
    test_printing::line(rt, b"refusal", choice.refusal as u64);
    test_printing::line(rt, b"card", choice.card as u64);
    test_printing::line(rt, b"offset", choice.offset as u64);
    test_printing::line(rt, b"length", choice.len as u64);
}

// The case at `start`: four lengths of 2 bytes each, then the four files. Gives back where the next case starts.
fn case(rt: &HostRuntime, cases: &[u8], start: usize) -> usize {
    let at = start % 1000000;
    let book = at + 8;
    let sheet = book + u16_at(cases, at) as usize;
    let first = sheet + u16_at(cases, at + 2) as usize;
    let second = first + u16_at(cases, at + 4) as usize;
    let end = second + u16_at(cases, at + 6) as usize;
    chosen(
        rt,
        between(cases, book, sheet),
        between(cases, sheet, first),
        between(cases, first, second),
        between(cases, second, end),
    );
    end
}

// The cases of a file.
fn run(rt: &HostRuntime, cases: &[u8]) {
    test_cases::each(rt, cases, 375, case);
}

fn main(rt: HostRuntime) {
    test_cases::with_file::<68000, _>(&rt, b"pairs.dat", run);
}
