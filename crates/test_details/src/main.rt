// What is known of the refusals of fleet books and sheets, written by hand and drawn. The cases are made by tests/make_data.py, the
// expected output by tests/expected/test_details.py.
#![tactic(auto)]

use test_buffers::between;
use test_cases::length_at;

// Prints the line of one number, where there is one.
fn of(rt: &HostRuntime, book: &[u8], sheet: &[u8], number: u32) {
    let text = refusal_details::detail(book, sheet, number);
    if text.len != 0 {
        test_printing::line(rt, b"of", number as u64);
        file_io::print(rt, text);
    }
}

// Prints the number that refuses a book and a sheet, and the lines of all numbers.
fn told(rt: &HostRuntime, book: &[u8], sheet: &[u8]) {
    let refusal = test_printing::refusal_number(validation::files_refusal(book, sheet));
    test_printing::line(rt, b"refusal", refusal);
    for number in 0..60 {
        of(rt, book, sheet, number);
    }
}

// The case at `start`: three bytes of length for the book and three for the sheet, then both. Gives back where the next case starts.
fn case(rt: &HostRuntime, cases: &[u8], start: usize) -> usize {
    let at = start % 4000000;
    let book = at + 6;
    let sheet = book + length_at(cases, at);
    let end = sheet + length_at(cases, at + 3);
    told(rt, between(cases, book, sheet), between(cases, sheet, end));
    end
}

// The cases of a file.
fn run(rt: &HostRuntime, cases: &[u8]) {
    test_cases::each(rt, cases, 400, case);
}

fn main(rt: HostRuntime) {
    test_cases::with_file::<330000, _>(&rt, b"cases.dat", run);
}
