// Fleet books of CSVs written by hand and drawn, and mixbook in one folder after another. The cases and folders are made by
// tests/make_data.py, the expected output by tests/expected/test_book.py.
#![tactic(auto)]

use test_buffers::between;

// Prints what is made of a CSV: the line of its fault, or the lines of its book with length and sum, and how many bytes of the buffer
// are still zero behind it.
fn made_of(rt: &HostRuntime, csv: &[u8]) {
    let mut output = [0u8; 40000];
    let len = match csv_book::csv_book(csv, &mut output) {
        Ok(made) => {
            test_printing::line(rt, b"fault", 0);
            file_io::print(rt, csv_book_text::book_lines(made));
            made.len
        }
        Err(finding) => {
            test_printing::line(rt, b"fault", finding.fault.number() as u64);
            test_printing::line(rt, b"line", finding.line as u64);
            test_printing::line(rt, b"field", finding.field as u64);
            file_io::print(rt, csv_book_text::fleet_fault(csv, finding.into()));
            0
        }
    };
    test_printing::line(rt, b"bytes", len as u64);
    test_printing::line(rt, b"sum", test_buffers::checksum(&output));
}

// The case at `start`: three bytes of length, then the CSV. Gives back where the next case starts.
fn case(rt: &HostRuntime, cases: &[u8], start: usize) -> usize {
    let at = start % 1000000;
    let csv = at + 3;
    let end = csv + test_cases::length_at(cases, at);
    made_of(rt, between(cases, csv, end));
    end
}

// The longest CSV, and all of these bytes, one more.
fn long_csvs(rt: &HostRuntime, bytes: &[u8]) {
    made_of(rt, file_io::first_bytes(bytes, 200000));
    made_of(rt, bytes);
}

// CSVs of 200,000 and of 200,001 bytes.
fn limits(rt: &HostRuntime) {
    let zeros = [0u8; 200001];
    long_csvs(rt, &zeros);
}

// A buffer that is too short.
fn short_buffer(rt: &HostRuntime) {
    let mut output = [1u8; 39999];
    if let Err(finding) = csv_book::csv_book(b"a,b\nc,1\n", &mut output) {
        file_io::print(rt, csv_book_text::fleet_fault(b"", finding.into()));
    }
    test_printing::line(rt, b"sum", test_buffers::checksum(&output));
}

// The line of a number that no fault has, at a boat and a column or nowhere.
fn no_fault(rt: &HostRuntime, fault: u32, line: usize, field: usize, columns: usize) {
    let finding = csv_book_text::NumberedFinding {
        fault,
        line,
        field,
        boats: 0,
        columns,
    };
    file_io::print(rt, csv_book_text::fleet_fault(b"a,b\nc,1\n", finding));
}

// mixbook in a folder, and the book that stands there afterwards.
fn folder(rt: &HostRuntime, name: &[u8]) {
    let mut book = [0u8; 40001];
    test_printing::title(rt, name);
    book_folder::file_book(rt, name);
    let n = file_io::read_in(rt, name, b"fleet.wbk", &mut book);
    test_printing::line(rt, b"bytes", n as u64);
    test_printing::line(rt, b"sum", test_buffers::checksum(&book[..n]));
}

// All of it.
fn run(rt: &HostRuntime, cases: &[u8]) {
    test_cases::each(rt, cases, 500, case);
    limits(rt);
    short_buffer(rt);
    no_fault(rt, 999, 2, 1, 1);
    no_fault(rt, 0, 0, 0, 0);
    folder(rt, b"");
    folder(rt, b"larger");
    folder(rt, b"faulty");
    folder(rt, b"none");
}

fn main(rt: HostRuntime) {
    test_cases::with_file::<380000, _>(&rt, b"cases.dat", run);
}
