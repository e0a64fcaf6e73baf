// The parts of a sheet read from its CSV, factors, steps and tolerance, and the CSV with the sheet behind it put into a buffer.
//
// Helpers for other crates, whose callers prove that the CSV has no fault: put_factors, steps_of, tolerance_for, put_file.
#![tactic(auto)]

ghost use Rattle.std.specs.Prelude.{List, ◌≡◌, ℕ, ◌*◌, ◌≤◌, length};
ghost use Rattle.files.specs.Limits.{file_limit};
ghost use Rattle.buffers.specs.Placed.{placed};
ghost use Rattle.sheet_output.specs.Output.{values_bytes, edition_bytes};
ghost use Rattle.csv_slots.specs.Slots.{Room, Held};
ghost use Rattle.csv_sheet_rows.specs.Numbers.{kind_number};
ghost use Rattle.csv_sheet_rows.specs.Rows.{rows_fault};
ghost use Rattle.csv_sheet_parts.specs.Parts.{row_for, target_of, has_factors, factor_at, factors_of, steps_of, tolerance_for, tolerance_of, sheet_of, sheet_at};
ghost use Rattle.csv_sheet_parts.specs.Ready.{Ready};

use buffers::put;
use csv_sheet_rows::Kind;

// The last row that stands for a kind, 0 where there is none.
fn row_for(csv: &[u8], kind: Kind) -> usize
    requires csv_len_bound { length csv.now ≤ 200000 }
    requires csv_value { (rows_fault csv.now).fault ≡ 0 }
    ensures { result ≡ row_for (kind_number kind) csv.now }
{
    let last = csv_sheet_rows::last_row(csv);
    csv_sheet_rows::row_of(csv, kind, last)
}

// Puts the hull's values at these places, 2 bytes each, from the first byte on.
fn put_target(csv: &[u8], places: &[u8], output: &mut [u8])
    requires ready { Ready places.now csv.now }
    requires places_in_bounds { 2 * length places.now ≤ length output.old }
    ensures { output.new ≡ placed output.old 0 (values_bytes (target_of places.now csv.now)) }
{
    let row = row_for(csv, Kind::Hull);
    let mut sizes = [0u8; 65];
    let mut cells = [0u8; 13000];
    csv_slots::put_rows(csv, row, 1, &mut sizes, &mut cells);
    for i in 0..places.len() {
        let text = csv_slots::cell(&cells, &sizes, places[i] as usize);
        let cell = csv_sheet_rows::read(text);
        put(
            output,
            2 * i,
            2,
            csv_fleet_reader::value_bits(cell.negative, cell.magnitude),
        );
    }
}

// The factor in a field of a row, whose fields are in the slots; 1 where there is no such row.
fn factor_in(sizes: &[u8], cells: &[u8], row: usize, field: usize) -> u32
    requires room { Room 1 sizes.now cells.now }
    requires field_bound { field ≤ 64 }
    ensures { (csv : List ℕ) → Held row 1 csv sizes.now cells.now → result ≡ factor_at row csv field }
{
    if row == 0 {
        return 1;
    }
    let text = csv_slots::cell(cells, sizes, field);
    let cell = csv_sheet_rows::read(text);
    cell.magnitude
}

// Puts the factors at these places, 1 byte each, from the first byte on.
pub fn put_factors(csv: &[u8], places: &[u8], output: &mut [u8])
    requires ready { Ready places.now csv.now }
    requires places_in_bounds { length places.now ≤ length output.old }
    ensures { output.new ≡ placed output.old 0 (factors_of places.now csv.now) }
{
    let row = row_for(csv, Kind::Factors);
    let mut sizes = [0u8; 65];
    let mut cells = [0u8; 13000];
    csv_slots::put_rows(csv, row, 1, &mut sizes, &mut cells);
    for i in 0..places.len() {
        output[i] = factor_in(&sizes, &cells, row, places[i] as usize) as u8;
    }
}

// The steps that a search may take.
pub fn steps_of(csv: &[u8]) -> u32
    requires csv_len_bound { length csv.now ≤ 200000 }
    requires csv_value { (rows_fault csv.now).fault ≡ 0 }
    ensures { result ≡ steps_of csv.now }
{
    let cell = csv_sheet_rows::cell_at(csv, row_for(csv, Kind::Steps), 1);
    cell.magnitude
}

// The tolerance with factors of this total.
pub fn tolerance_for(csv: &[u8], total: usize) -> u64
    requires csv_len_bound { length csv.now ≤ 200000 }
    requires csv_value { (rows_fault csv.now).fault ≡ 0 }
    requires total_bound { total ≤ 64 }
    ensures { result ≡ tolerance_for total csv.now }
{
    let row = row_for(csv, Kind::Tolerance);
    let cell = csv_sheet_rows::cell_at(csv, row, 1);
    let number = cell.magnitude as u64;
    if csv_sheet_rows::kind_at(csv, row) == Kind::Each {
        return number * number * total as u64;
    }
    number
}

// Puts a sheet without front text, with these factors, from the first byte on; gives back its size.
fn put_sheet(
    csv: &[u8],
    places: &[u8],
    factors: &[u8],
    steps: u32,
    tolerance: u32,
    output: &mut [u8],
) -> usize
    requires ready { Ready places.now csv.now }
    requires factors_len { length factors.now ≡ length places.now }
    requires in_bounds { 208 ≤ length output.old }
    ensures value { result ≡ length (edition_bytes (has_factors csv.now) (sheet_of places.now csv.now factors.now steps tolerance)) }
    ensures upper_bound { result ≤ 208 }
    ensures output_after { output.new ≡ placed output.old 0 (edition_bytes (has_factors csv.now) (sheet_of places.now csv.now factors.now steps tolerance)) }
{
    let columns = places.len();
    put_target(csv, places, output);
    if row_for(csv, Kind::Factors) == 0 {
        sheet_output::put_sheet_trailer(output, 2 * columns, columns, steps, tolerance);
        return 2 * columns + 16;
    }
    buffers::put_bytes(output, 2 * columns, factors);
    sheet_output::put_factored_trailer(output, 3 * columns, columns, steps, tolerance);
    3 * columns + 16
}

// Puts the CSV and the sheet behind it, from the first byte on; gives back how many bytes.
pub fn put_file(
    csv: &[u8],
    places: &[u8],
    factors: &[u8],
    steps: u32,
    tolerance: u32,
    output: &mut [u8],
) -> usize
    requires ready { Ready places.now csv.now }
    requires factors_value { factors.now ≡ factors_of places.now csv.now }
    requires steps_value { steps ≡ steps_of csv.now }
    requires tolerance_value { tolerance ≡ tolerance_of places.now csv.now }
    requires file_limit_in_bounds { file_limit ≤ length output.old }
    ensures value { result ≡ length (sheet_at places.now csv.now) }
    ensures output_after { output.new ≡ placed output.old 0 (sheet_at places.now csv.now) }
{
    let mut sheet = [0u8; 208];
    let size = put_sheet(csv, places, factors, steps, tolerance, &mut sheet);
    buffers::put_bytes(output, 0, csv);
    buffers::put_bytes(output, csv.len(), &sheet[..size]);
    csv.len() + size
}
