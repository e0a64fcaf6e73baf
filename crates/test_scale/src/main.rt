// Drawn scale cells turned into sheet values and into sheets. The expected output is made by tests/expected/test_scale.py.
#![tactic(auto)]

mod draws;

use refusals::Refusal;
use scale_cells::ScaleCell;
use scale_sheet::MadeSheet;
use test_buffers::between;

// Puts a fleet book of one boat, or of none, and gives back where it ends.
fn put_book(book: &mut [u8], boats: u64, columns: u64) -> usize {
    let back = 2 * (columns % 65);
    test_buffers::put_book_trailer(book, back as usize, back, boats, columns)
}

// A sum that depends on every value and its place.
fn sum(values: [i16; 64]) -> u64 {
    let mut sum = 0;
    for i in 0..64 {
        let value = values[i];
        sum = (sum % 1000003 * 257 + sheet_output::bits_of(value) % 65536) % 1000003;
    }
    sum
}

// The first 5 values, each as its 16 bits.
fn print_first(rt: &HostRuntime, values: [i16; 64]) {
    for i in 0..5 {
        let value = values[i];
        test_printing::number(rt, sheet_output::bits_of(value));
    }
}

// A line of the refusal, the first values and a sum of all 64, each 0 where there are none.
fn print_found(rt: &HostRuntime, found: Result<[i16; 64], Refusal>) {
    test_printing::word(rt, b"values");
    test_printing::number(rt, test_printing::refusal_number(found));
    let values = found.unwrap_or([0i16; 64]);
    print_first(rt, values);
    test_printing::number(rt, sum(values));
    test_printing::word(rt, b"\n");
}

// A line of the refusal, the length and a sum of the bytes, each 0 where there is no sheet.
fn print_made(rt: &HostRuntime, made: Result<MadeSheet, Refusal>) {
    test_printing::word(rt, b"sheet");
    test_printing::number(rt, test_printing::refusal_number(made));
    let sheet = made.unwrap_or(MadeSheet {
        len: 0,
        bytes: [0u8; 144],
    });
    test_printing::number(rt, sheet.len as u64);
    let bytes = sheet.bytes;
    test_printing::number(rt, test_buffers::checksum(&bytes));
    test_printing::word(rt, b"\n");
}

// The values and the sheet of one book and its cells.
fn run(rt: &HostRuntime, book: &[u8], cells: [ScaleCell; 64], steps: u32, tolerance: u32) {
    print_found(rt, scale_conversion::sheet_values(book, cells));
    print_made(rt, scale_sheet::scale_sheet(book, cells, steps, tolerance));
}

// One drawn case. One book in sixteen has no boat.
fn one(rt: &HostRuntime, seed: &mut u64, number: u64) {
    let mut book = [0u8; 160];
    test_printing::line(rt, b"case", number);
    let columns = draws::columns(seed);
    let boats = if test_samples::draw(seed, 16) == 0 {
        0
    } else {
        1
    };
    let end = put_book(&mut book, boats, columns);
    let cells = draws::cells(seed, columns);
    let steps = draws::steps(seed);
    let tolerance = draws::tolerance(seed);
    run(rt, between(&book, 0, end), cells, steps, tolerance);
}

fn main(rt: HostRuntime) {
    let mut seed = 21;
    for number in 0..3000 {
        one(&rt, &mut seed, number);
    }
}
