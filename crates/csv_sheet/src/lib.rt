// The sheet of two CSVs: from the bytes of a spreadsheet to the file that a search reads.
//
// Entry, which asks nothing of its caller: csv_sheet.
#![tactic(auto)]

ghost use Rattle.std.specs.Prelude.{◌≡◌, ◌≤◌, length, take};
ghost use Rattle.files.specs.Limits.{file_limit};
ghost use Rattle.csv_fleet_tokens.specs.Table.{numbered};
ghost use Rattle.csv_fleet_reader.specs.Fleet.{last_table};
ghost use Rattle.csv_sheet_rows.specs.Rows.{rows_fault};
ghost use Rattle.csv_sheet_parts.specs.Ready.{Ready};
ghost use Rattle.csv_sheet.specs.Outcomes.{outcome};
ghost use Rattle.csv_sheet.specs.Sheets.{made_at, made_of_columns, sheet_made, output_at, output_by};
ghost use Rattle.csv_sheet.specs.Promise.{SheetRight};

use csv_fleet_tokens::{Fault, Table};
use csv_sheet_rows::{Finding, without};

// What was made: a sheet of `len` bytes for so many columns, with the total of its factors, its steps and its tolerance.
#[derive(Clone, Copy, Debug, PartialEq, Eq)]
pub struct Made {
    pub len: usize,
    pub columns: usize,
    pub factors: usize,
    pub steps: u32,
    pub tolerance: u32,
}

// What was read of a fleet's CSV.
fn fleet_table(fleet: &[u8]) -> Table
    requires { length fleet.now ≤ 200000 }
    ensures { numbered result ≡ last_table fleet.now }
{
    let mut rows = [0u8; 32768];
    let read = csv_fleet_reader::read_fleet(fleet, &mut rows);
    let table = read.table;
    table
}

// Once the columns match: these are their places.
fn make_at(csv: &[u8], places: &[u8], output: &mut [u8]) -> Result<Made, Finding>
    requires ready { Ready places.now csv.now }
    requires file_limit_in_bounds { file_limit ≤ length output.old }
    ensures value { outcome result ≡ made_at places.now csv.now }
    ensures output_after { output.new ≡ output_at (outcome result).fault places.now csv.now output.old }
{
    let columns = places.len();
    let mut list = [0u8; 64];
    csv_sheet_parts::put_factors(csv, places, &mut list);
    let total = factors::total(&list[..columns]);
    if !file_parts::is_between(1, 64, total) {
        return Err(without(Fault::FactorTotal));
    }
    let tolerance = csv_sheet_parts::tolerance_for(csv, total);
    if 1024000000 < tolerance {
        return Err(without(Fault::LargeTolerance));
    }
    let steps = csv_sheet_parts::steps_of(csv);
    let len = csv_sheet_parts::put_file(
        csv,
        places,
        &list[..columns],
        steps,
        tolerance as u32,
        output,
    );
    Ok(Made {
        len,
        columns,
        factors: total,
        steps,
        tolerance: tolerance as u32,
    })
}

// Once nothing is wrong but perhaps the columns, of which the fleet has so many.
fn make_of_columns(
    fleet: &[u8],
    columns: usize,
    csv: &[u8],
    output: &mut [u8],
) -> Result<Made, Finding>
    requires fleet_len_bound { length fleet.now ≤ 200000 }
    requires fleet_value { (last_table fleet.now).fault ≡ 0 }
    requires columns_value { columns ≡ (last_table fleet.now).columns }
    requires csv_len_bound { length csv.now ≤ 39000 }
    requires csv_value { (rows_fault csv.now).fault ≡ 0 }
    requires file_limit_in_bounds { file_limit ≤ length output.old }
    ensures value { outcome result ≡ made_of_columns fleet.now csv.now }
    ensures output_after { output.new ≡ output_by (outcome result).fault fleet.now csv.now output.old }
{
    let names = csv_sheet_rows::columns(csv);
    if let Err(found) = csv_column_match::find_mismatch(fleet, columns, csv, names) {
        return Err(Finding {
            fault: found.fault,
            line: 0,
            row: 0,
            field: found.column,
        });
    }
    let mut places = [0u8; 64];
    csv_column_match::put_positions(fleet, columns, csv, names, &mut places);
    make_at(csv, &places[..columns], output)
}

// ENTRY. Puts the sheet of two CSVs, with the sheet's as front text, into a buffer from its first byte on. Where there is a fault, no byte is
// written, and its place is a line, its row and a field of the sheet's CSV, or a column as the field, or all are 0. Besides what csv_sheet_rows,
// csv_cells and csv_column_match find, a fault is: more than 39,000 bytes of CSV, a buffer of fewer than 40,000 bytes, a fleet's CSV with a fault,
// factors that do not total 1 to 64, a tolerance above 1,024,000,000.
pub fn csv_sheet(fleet: &[u8], csv: &[u8], output: &mut [u8]) -> Result<Made, Finding>
    ensures value { outcome result ≡ sheet_made (length output.old) fleet.now csv.now }
    ensures output_after { output.new ≡ output_by (outcome result).fault fleet.now csv.now output.old }
    ensures sheet_right { SheetRight fleet.now csv.now (outcome result) (take (outcome result).len output.new) }
{
    if output.len() < 40000 {
        return Err(without(Fault::Room));
    }
    if 39000 < csv.len() {
        return Err(without(Fault::Big));
    }
    if 200000 < fleet.len() {
        return Err(without(Fault::Fleet));
    }
    let table = fleet_table(fleet);
    if table.fault.is_some() {
        return Err(without(Fault::Fleet));
    }
    csv_sheet_rows::rows_fault(csv)?;
    make_of_columns(fleet, table.columns, csv, output)
}
