// The number that refuses a fleet book or a sheet, or 0. docs/formats.md has the numbers.
//
// Helpers for other crates that ask nothing of their caller: book_refusal, sheet_refusal_in, sheet_refusal, files_refusal.
#![tactic(auto)]

ghost use Rattle.std.specs.Prelude.{◌≡◌, ◌||◌, ◌≤◌, length};
ghost use Rattle.refusals.specs.Numbers.{refusal_number};
ghost use Rattle.files.specs.Book.{book_refusal};
ghost use Rattle.files.specs.Sheet.{WSH1, WSH2, sheet_lettered, sheet_refusal_in, sheet_refusal, files_refusal};

use refusals::Refusal;

// The most bytes a file may have.
const MOST_BYTES: usize = 40000;

// The most steps a sheet may ask for.
const MOST_STEPS: usize = files::MOST_STEPS as usize;

// The number that refuses a fleet book, or 0.
pub fn book_refusal(book: &[u8]) -> Result<(), Refusal>
    ensures { refusal_number result ≡ book_refusal book.now }
{
    if !file_parts::is_between(12, MOST_BYTES, book.len()) {
        return Err(Refusal::BookLength);
    }
    if !files::ends_with(book, b"WBK1") {
        return Err(Refusal::BookLetters);
    }
    let n = files::boats(book);
    if !file_parts::is_between(1, 256, n) {
        return Err(Refusal::BookBoats);
    }
    let c = files::columns(book);
    if !file_parts::is_between(1, 64, c) {
        return Err(Refusal::BookColumns);
    }
    let count = n * c;
    file_parts::body_refusal(
        book,
        12,
        2 * count,
        count,
        Refusal::BookBack,
        Refusal::BookValue,
    )
}

// Whether a sheet ends with the letters of either edition.
fn is_lettered(sheet: &[u8]) -> bool
    requires { 16 ≤ length sheet.now }
    ensures { result ≡ sheet_lettered WSH1 sheet.now || sheet_lettered WSH2 sheet.now }
{
    if files::ends_with(sheet, b"WSH1") {
        return true;
    }
    files::ends_with(sheet, b"WSH2")
}

// The number that refuses a sheet that is to have `least` to `most` columns, or 0.
pub fn sheet_refusal_in(sheet: &[u8], least: u32, most: u32) -> Result<(), Refusal>
    ensures { refusal_number result ≡ sheet_refusal_in least most sheet.now }
{
    if !file_parts::is_between(16, MOST_BYTES, sheet.len()) {
        return Err(Refusal::SheetLength);
    }
    if !is_lettered(sheet) {
        return Err(Refusal::SheetLetters);
    }
    let columns = files::sheet_columns(sheet) as usize;
    if !file_parts::is_between(least as usize, most as usize, columns) {
        return Err(Refusal::SheetColumns);
    }
    if !file_parts::is_between(1, MOST_STEPS, files::steps(sheet) as usize) {
        return Err(Refusal::SheetSteps);
    }
    if files::tolerance(sheet) > 1024000000 {
        return Err(Refusal::SheetTolerance);
    }
    let back = files::sheet_back(sheet);
    file_parts::body_refusal(
        sheet,
        16,
        back,
        columns,
        Refusal::SheetBack,
        Refusal::SheetValue,
    )?;
    if !file_parts::is_between(1, 64, factors::factor_total(sheet)) {
        return Err(Refusal::SheetFactors);
    }
    Ok(())
}

// The number that refuses a sheet for a fleet book of so many columns, or 0.
pub fn sheet_refusal(sheet: &[u8], columns: u32) -> Result<(), Refusal>
    ensures { refusal_number result ≡ sheet_refusal columns sheet.now }
{
    sheet_refusal_in(sheet, columns, columns)
}

// The number that refuses a fleet book or else a sheet for it, or 0.
pub fn files_refusal(book: &[u8], sheet: &[u8]) -> Result<(), Refusal>
    ensures { refusal_number result ≡ files_refusal book.now sheet.now }
{
    book_refusal(book)?;
    sheet_refusal(sheet, files::columns(book) as u32)
}
