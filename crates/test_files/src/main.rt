// Fleet books and sheets made from bytes in memory: each case is one line, its name and the number that refuses it, 0 where
// it is accepted. Expected: tests/expected/test_files.py.
// A file under test is the last bytes of an array of 40,001: its trailer stands at the end, and zeros before it.
#![tactic(auto)]

mod cases;

use refusals::Refusal;
use test_buffers::{between, less};
use test_tables::field;

// The bits of -32,768, -2,001, -2,000, -1, 2,000, 2,001 and 32,767.
const VALUES: [u64; 7] = [32768, 63535, 63536, 65535, 2000, 2001, 32767];

// Puts a value and the trailer at 39,989 of a line's fleet book, and gives back where the file starts.
fn put_book(file: &mut [u8], line: &[u8], value: u64) -> usize {
    let place = less(39989, field(line, b'P', 39989) as usize);
    test_buffers::put_number(file, place, value, 2);
    test_tables::put_fields(file, 39989, line, b"KNCW", b"4224", b"K12 N3 C2 W827015767");
    less(40001, field(line, b'L', 24) as usize)
}

// The same of a sheet, whose trailer is at 39,985.
fn put_sheet(file: &mut [u8], line: &[u8], value: u64) -> usize {
    let place = less(39985, field(line, b'P', 39985) as usize);
    test_buffers::put_number(file, 39982, field(line, b'F', 0), 3);
    test_buffers::put_number(file, place, value, 2);
    test_tables::put_fields(
        file,
        39985,
        line,
        b"KCSTW",
        b"42244",
        b"K6 C3 S9 T1 W826823511",
    );
    less(40001, field(line, b'L', 22) as usize)
}

fn book_refusal(line: &[u8], value: u64) -> Result<(), Refusal> {
    let mut file = [0u8; 40001];
    let start = put_book(&mut file, line, value);
    validation::book_refusal(between(&file, start, 40001))
}

fn sheet_refusal(line: &[u8], value: u64) -> Result<(), Refusal> {
    let mut file = [0u8; 40001];
    let start = put_sheet(&mut file, line, value);
    let columns = (field(line, b'Q', 3) % 4294967296) as u32;
    validation::sheet_refusal(between(&file, start, 40001), columns)
}

fn files_refusal(book_line: &[u8], sheet_line: &[u8]) -> Result<(), Refusal> {
    let mut book = [0u8; 40001];
    let mut sheet = [0u8; 40001];
    let i = put_book(&mut book, book_line, field(book_line, b'V', 0));
    let j = put_sheet(&mut sheet, sheet_line, field(sheet_line, b'V', 0));
    validation::files_refusal(between(&book, i, 40001), between(&sheet, j, 40001))
}

// What refuses a line's file or files.
fn refusal(line: &[u8], value: u64) -> Result<(), Refusal> {
    let middle = test_tables::find(line, 0, b';');
    if middle < line.len() {
        return files_refusal(
            between(line, 0, middle),
            between(line, middle + 1, line.len()),
        );
    }
    if test_buffers::byte_at(line, 0) == b's' {
        return sheet_refusal(line, value);
    }
    book_refusal(line, value)
}

// Ends a line of the output, with the number of a refusal, 0 where there is none.
fn print_refusal(rt: &HostRuntime, judged: Result<(), Refusal>) {
    let number = match judged {
        Ok(()) => 0,
        Err(refusal) => refusal.number(),
    };
    let _ = rt.write_all(b": ");
    let _ = rt.print(number as u64);
    let _ = rt.write_all(b"\n");
}

// A line of the output for one value of the list.
fn value_case(rt: &HostRuntime, line: &[u8], value: u64) {
    let _ = rt.write_all(test_tables::name(line));
    let _ = rt.write_all(b" ");
    let _ = rt.print(value);
    print_refusal(rt, refusal(line, value));
}

// A case for each value of the list.
fn value_cases(rt: &HostRuntime, line: &[u8]) {
    for value in &VALUES {
        value_case(rt, line, *value);
    }
}

fn case(rt: &HostRuntime, line: &[u8]) {
    if test_tables::find(line, 0, b'A') < line.len() {
        value_cases(rt, line);
        return;
    }
    let _ = rt.write_all(test_tables::name(line));
    print_refusal(rt, refusal(line, field(line, b'V', 0)));
}

// Each line of a table.
pub fn each_case(rt: &HostRuntime, table: &str) {
    for line in table.lines() {
        case(rt, line.as_bytes());
    }
}

fn main(rt: HostRuntime) {
    cases::books(&rt);
    cases::book_bodies(&rt);
    cases::sheets(&rt);
    cases::sheet_bodies(&rt);
    cases::factored_sheets(&rt);
    cases::factors(&rt);
    cases::both(&rt);
}
