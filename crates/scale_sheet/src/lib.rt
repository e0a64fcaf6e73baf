// The sheet of scale cells: from the cells that a weigh hall hands over to the file that a search reads. docs/cells.md has the rules.
//
// Entry, which asks nothing of its caller: scale_sheet.
#![tactic(auto)]

ghost use Rattle.std.specs.Prelude.{◌≡◌};
ghost use Rattle.scale_sheet.specs.Sheets.{scale_sheet, as_sheet};
ghost use Rattle.scale_sheet.specs.Promise.{SheetRight};

use refusals::Refusal;
use scale_cells::ScaleCell;

// The most steps that a sheet may ask for.
const MOST_STEPS: usize = files::MOST_STEPS as usize;

// A sheet by value: its bytes are the first `len` of `bytes`, and 0 stands behind them.
#[derive(Clone, Copy)]
pub struct MadeSheet {
    pub len: usize,
    pub bytes: [u8; 144],
}

// A made sheet or a refusal for programs in other languages. A refused call has its number in `refusal`, no byte and 0 everywhere; an
// accepted one has 0 in `refusal`.
#[repr(C)]
#[derive(Clone, Copy)]
pub struct ScaleSheet {
    pub refusal: u32,
    pub len: usize,
    pub bytes: [u8; 144],
}

// ENTRY. The sheet whose target is the values of the cells, with these steps and this tolerance: refuses a book or a cell as
// sheet_values does (1 to 6, then 41 to 43), then steps (14), then a tolerance (15) that a sheet cannot have.
pub fn scale_sheet(
    book: &[u8],
    cells: [ScaleCell; 64],
    steps: u32,
    tolerance: u32,
) -> Result<MadeSheet, Refusal>
    ensures value { as_sheet result ≡ scale_sheet book.now cells steps tolerance }
    ensures sheet_right { SheetRight book.now cells steps tolerance (as_sheet result) }
{
    let values = scale_conversion::sheet_values(book, cells)?;
    if !file_parts::is_between(1, MOST_STEPS, steps as usize) {
        return Err(Refusal::SheetSteps);
    }
    if 1024000000 < tolerance {
        return Err(Refusal::SheetTolerance);
    }
    let columns = files::columns(book);
    let back = 2 * columns;
    let len = back + 16;
    let mut bytes = [0u8; 144];
    sheet_output::put_values(&mut bytes, values, columns);
    sheet_output::put_sheet_trailer(&mut bytes, back, columns, steps, tolerance);
    Ok(MadeSheet { len, bytes })
}
