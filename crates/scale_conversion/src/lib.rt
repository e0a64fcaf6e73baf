// Scale cells turned into the values of a sheet. docs/cells.md has the rules.
//
// Entry, which asks nothing of its caller: sheet_values.
#![tactic(auto)]

ghost use Rattle.std.specs.Prelude.{◌≡◌, ◌≤◌, take};
ghost use Rattle.scale_cells.specs.Cells.{sheet_values, as_values};
ghost use Rattle.scale_cells.specs.Promise.{ConversionRight};
ghost use Rattle.scale_conversion.specs.Outcomes.{net_cell, outcome, cell_outcome, values_of};

use refusals::Refusal;
use scale_cells::{Cell, ScaleCell};

// The value of a net in units of so many kilograms.
fn net_outcome(net: f64, unit: u32) -> Result<i16, Refusal>
    ensures { outcome result ≡ cell_outcome (net_cell net unit) }
{
    if !scale_readings::is_within_limit(net) {
        return Err(Refusal::CellReading);
    }
    if !file_parts::is_between(1, 10000, unit as usize) {
        return Err(Refusal::CellUnit);
    }
    let value = rounding::rounded(scale_readings::whole_kilograms(net), unit);
    if value < -2000 {
        return Err(Refusal::CellUnit);
    }
    if 2000 < value {
        return Err(Refusal::CellUnit);
    }
    Ok(value as i16)
}

// The value of a cell.
fn cell_outcome(s: ScaleCell) -> Result<i16, Refusal>
    ensures { outcome result ≡ cell_outcome s }
{
    let cell = s.cell;
    match cell {
        Cell::Unweighed => Err(Refusal::CellUnweighed),
        Cell::Net(net) => net_outcome(net, s.unit),
        Cell::Weighed(w) => net_outcome(w.gross - w.tare, s.unit),
    }
}

// The values of the first cells, as many as there are columns.
fn values_of(cells: [ScaleCell; 64], columns: usize) -> Result<[i16; 64], Refusal>
    requires { columns ≤ 64 }
    ensures { as_values result ≡ values_of (take columns cells) }
{
    let mut values = [0i16; 64];
    for i in 0..columns {
        values[i] = cell_outcome(cells[i])?;
    }
    Ok(values)
}

// ENTRY. The sheet values of cells, one a column of the book: refuses a book that does not serve (1 to 6), then cell by cell one
// that does not (41, 42, 43); else gives the values, with 0 past the last column. Cells past the book's columns are not read.
pub fn sheet_values(book: &[u8], cells: [ScaleCell; 64]) -> Result<[i16; 64], Refusal>
    ensures value { as_values result ≡ sheet_values book.now cells }
    ensures conversion_right { ConversionRight book.now cells (as_values result) }
{
    validation::book_refusal(book)?;
    let columns = files::columns(book);
    values_of(cells, columns)
}
