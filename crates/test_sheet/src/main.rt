// Sheets of CSVs written by hand and drawn, mixsheet in one folder after another, and the way from spreadsheets to a card. The cases and folders are made by
// tests/make_data.py, the expected output by tests/expected/test_sheet.py.
#![tactic(auto)]

use test_buffers::{between, u16_at};

// Prints what is made of a fleet's CSV and a sheet's: the line of its fault, or the lines of the sheet, then its length and a sum over
// the whole buffer.
fn made_of(rt: &HostRuntime, fleet: &[u8], csv: &[u8]) {
    let mut output = [0u8; 40000];
    let len = match csv_sheet::csv_sheet(fleet, csv, &mut output) {
        Ok(made) => {
            test_printing::line(rt, b"fault", 0);
            file_io::print(rt, csv_sheet_text::sheet_lines(made));
            made.len
        }
        Err(finding) => {
            test_printing::line(rt, b"fault", finding.fault.number() as u64);
            test_printing::line(rt, b"line", finding.line as u64);
            test_printing::line(rt, b"field", finding.field as u64);
            file_io::print(rt, csv_sheet_text::sheet_fault(fleet, csv, finding.into()));
            0
        }
    };
    test_printing::line(rt, b"bytes", len as u64);
    test_printing::line(rt, b"sum", test_buffers::checksum(&output));
}

// The case at `start`: two bytes of length and the fleet's CSV, then the same of the sheet's. Gives back where the next case starts.
fn case(rt: &HostRuntime, cases: &[u8], start: usize) -> usize {
    let at = start % 1000000;
    let fleet = at + 2;
    let middle = fleet + u16_at(cases, at) as usize;
    let csv = middle + 2;
    let end = csv + u16_at(cases, middle) as usize;
    made_of(rt, between(cases, fleet, middle), between(cases, csv, end));
    end
}

// Each case of a file.
fn each(rt: &HostRuntime, cases: &[u8], count: u64) {
    let mut at = 0;
    for number in 0..count {
        test_printing::line(rt, b"case", number);
        at = case(rt, cases, at);
    }
}

// The longest CSV of a sheet and one byte more of these, the longest of a fleet, and all of these bytes, one more.
fn long_csvs(rt: &HostRuntime, bytes: &[u8]) {
    let fleet = b"a,b\nc,1\n";
    made_of(rt, fleet, file_io::first_bytes(bytes, 39000));
    made_of(rt, fleet, file_io::first_bytes(bytes, 39001));
    made_of(rt, file_io::first_bytes(bytes, 200000), b"");
    made_of(rt, bytes, b"");
}

// CSVs of 39,000 and 39,001 bytes for a sheet, and of 200,000 and 200,001 for a fleet.
fn limits(rt: &HostRuntime) {
    let zeros = [0u8; 200001];
    long_csvs(rt, &zeros);
}

// A buffer that is too short.
fn short_buffer(rt: &HostRuntime) {
    let fleet = b"a,b\nc,1\n";
    let mut output = [1u8; 39999];
    let csv = b",b\nd,1\nsteps,1\ntolerance,1\n";
    if let Err(finding) = csv_sheet::csv_sheet(fleet, csv, &mut output) {
        file_io::print(rt, csv_sheet_text::sheet_fault(fleet, csv, finding.into()));
    }
    test_printing::line(rt, b"sum", test_buffers::checksum(&output));
}

// The line of a number that no fault has, in a row or nowhere.
fn no_fault(rt: &HostRuntime, fault: u32, line: usize, row: usize, field: usize) {
    let finding = csv_sheet_text::NumberedFinding {
        fault,
        line,
        row,
        field,
    };
    let csv = b",b\nd,1\n";
    file_io::print(rt, csv_sheet_text::sheet_fault(b"a,b\nc,1\n", csv, finding));
}

// mixsheet in a folder, and the sheet that stands there afterwards.
fn folder(rt: &HostRuntime, name: &[u8]) {
    let mut sheet = [0u8; 40001];
    test_printing::title(rt, name);
    sheet_folder::file_sheet(rt, name);
    let n = file_io::read_in(rt, name, b"sheet.wsh", &mut sheet);
    test_printing::line(rt, b"bytes", n as u64);
    test_printing::line(rt, b"sum", test_buffers::checksum(&sheet[..n]));
}

// From the two spreadsheets of a folder to the card that is filed there and checked: mixbook, mixsheet, mixcard, mixcheck.
fn worked(rt: &HostRuntime, name: &[u8]) {
    test_printing::title(rt, name);
    book_folder::file_book(rt, name);
    sheet_folder::file_sheet(rt, name);
    card_folder::file_card(rt, name);
    card_folder::check_card(rt, name);
}

// mixsheet in one folder after another, and the way to a card.
fn folders(rt: &HostRuntime) {
    folder(rt, b"");
    folder(rt, b"factors");
    folder(rt, b"open");
    folder(rt, b"faulty");
    folder(rt, b"fleet");
    folder(rt, b"alone");
    folder(rt, b"longer");
    folder(rt, b"none");
    worked(rt, b"");
    worked(rt, b"factors");
    worked(rt, b"open");
}

// All of it; the cases are read into this buffer.
fn run(rt: &HostRuntime, buffer: &mut [u8]) {
    let n = file_io::read_file(rt, b"cases.dat", buffer);
    each(rt, file_io::first_bytes(buffer, n), 600);
    limits(rt);
    short_buffer(rt);
    no_fault(rt, 999, 2, 1, 1);
    no_fault(rt, 0, 0, 0, 0);
    folders(rt);
}

fn main(rt: HostRuntime) {
    let mut cases = [0u8; 185000];
    run(&rt, &mut cases);
}
