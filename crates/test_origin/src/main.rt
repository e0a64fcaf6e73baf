// Books and sheets beside the CSVs that they were made from, or beside others, by hand and drawn. The cases are made by tests/make_data.py, the
// expected output by tests/expected/test_origin.py.
#![tactic(auto)]

use test_buffers::between;

// Where the part at `at` ends, which has three bytes of length in front.
fn end_of(cases: &[u8], at: usize) -> usize {
    let start = at % 1000000;
    start + 3 + test_cases::length_at(cases, start)
}

// A line of a word, with 1 for yes and 0 for no.
fn said(rt: &HostRuntime, word: &[u8], yes: bool) {
    if yes {
        test_printing::line(rt, word, 1);
    } else {
        test_printing::line(rt, word, 0);
    }
}

// The case at `start`: its name, the CSVs of the fleet and of the sheet, the book and the sheet. Gives back where the next case starts.
fn case(rt: &HostRuntime, cases: &[u8], start: usize) -> usize {
    let at = start % 1000000;
    let first = end_of(cases, at);
    let second = end_of(cases, first);
    let third = end_of(cases, second);
    let fourth = end_of(cases, third);
    let fifth = end_of(cases, fourth);
    let fleet = between(cases, first % 1000000 + 3, second);
    let csv = between(cases, second % 1000000 + 3, third);
    test_printing::title(rt, between(cases, at + 3, first));
    said(
        rt,
        b"book",
        csv_origin::is_book_of(fleet, between(cases, third % 1000000 + 3, fourth)),
    );
    said(
        rt,
        b"sheet",
        csv_origin::is_sheet_of(fleet, csv, between(cases, fourth % 1000000 + 3, fifth)),
    );
    fifth
}

// The cases of a file.
fn run(rt: &HostRuntime, cases: &[u8]) {
    test_cases::one_after_another(rt, cases, 0, 195, case);
}

fn main(rt: HostRuntime) {
    test_cases::with_file::<300000, _>(&rt, b"cases.dat", run);
}
