// Fleet books and sheets read: their fields, where their values start, and the value at an offset. docs/formats.md has the files.
//
// Helpers for other crates, whose callers prove what they require: u16_at, u32_at, u64_at and value_at read at an offset, ends_with
// at the end; boats, columns and book_body a fleet book, sheet_columns, steps, tolerance, sheet_back and sheet_body a sheet.
#![tactic(auto)]

ghost use Rattle.std.specs.Prelude.{◌≡◌, ◌+◌, ◌-◌, ◌*◌, ◌≤◌, ◌<◌, length, drop};
ghost use Rattle.files.specs.Bytes.{number, value, same};
ghost use Rattle.files.specs.Book.{boats, columns, BookWhole, rows_offset};
ghost use Rattle.files.specs.Sheet.{sheet_columns, factor_bytes, sheet_back, SheetWhole, target_offset};
ghost use Rattle.files.specs.Sheet as Sheets;

// The most steps that a sheet may ask for.
pub const MOST_STEPS: u32 = 360;

// A byte in a wider type.
fn wide(x: u8) -> u32
    ensures value { result ≡ x }
    ensures upper_bound { result < 256 }
{
    x as u32
}

// The 2-byte number at `at`.
pub fn u16_at(b: &[u8], at: usize) -> u32
    requires { at + 2 ≤ length b.now }
    ensures value { result ≡ number at 2 b.now }
    ensures upper_bound { result < 65536 }
{
    wide(b[at]) + 256 * wide(b[at + 1])
}

// The 4-byte number at `at`.
pub fn u32_at(b: &[u8], at: usize) -> u32
    requires { at + 4 ≤ length b.now }
    ensures { result ≡ number at 4 b.now }
{
    u16_at(b, at) + 65536 * u16_at(b, at + 2)
}

// The 8-byte number at `at`.
pub fn u64_at(b: &[u8], at: usize) -> u64
    requires { at + 8 ≤ length b.now }
    ensures { result ≡ number at 8 b.now }
{
    u32_at(b, at) as u64 + 4294967296 * (u32_at(b, at + 4) as u64)
}

// The value at `at`.
pub fn value_at(b: &[u8], at: usize) -> i32
    requires { at + 2 ≤ length b.now }
    ensures { result ≡ value (number at 2 b.now) }
{
    ((u16_at(b, at) + 32768) % 65536) as i32 - 32768
}

// Whether a file ends with these letters.
pub fn ends_with(b: &[u8], letters: &[u8]) -> bool
    requires { length letters.now ≤ length b.now }
    ensures { result ≡ same (drop (length b.now - length letters.now) b.now) letters.now }
{
    b.ends_with(letters)
}

// The boats of a fleet book.
pub fn boats(book: &[u8]) -> usize
    requires { 12 ≤ length book.now }
    ensures { result ≡ boats book.now }
{
    u16_at(book, book.len() - 8) as usize
}

// The columns of a fleet book.
pub fn columns(book: &[u8]) -> usize
    requires { 12 ≤ length book.now }
    ensures value { result ≡ columns book.now }
    ensures upper_bound { result < 65536 }
{
    u16_at(book, book.len() - 6) as usize
}

// The offset of a fleet book's first row.
pub fn book_body(book: &[u8]) -> usize
    requires { BookWhole book.now }
    ensures { result ≡ rows_offset book.now }
{
    book.len() - 12 - 2 * (boats(book) * columns(book))
}

// The columns of a sheet.
pub fn sheet_columns(sheet: &[u8]) -> u32
    requires { 16 ≤ length sheet.now }
    ensures value { result ≡ sheet_columns sheet.now }
    ensures upper_bound { result < 65536 }
{
    u16_at(sheet, sheet.len() - 12)
}

// The most steps that a sheet allows.
pub fn steps(sheet: &[u8]) -> u32
    requires { 16 ≤ length sheet.now }
    ensures { result ≡ (Sheets.sheet sheet.now).steps }
{
    u16_at(sheet, sheet.len() - 10)
}

// The tolerance of a sheet.
pub fn tolerance(sheet: &[u8]) -> u32
    requires { 16 ≤ length sheet.now }
    ensures { result ≡ (Sheets.sheet sheet.now).tolerance }
{
    u32_at(sheet, sheet.len() - 8)
}

// How many bytes of factors a sheet has: one a column in the edition WSH2, none in WSH1.
fn factor_bytes(sheet: &[u8]) -> usize
    requires { 16 ≤ length sheet.now }
    ensures value { result ≡ factor_bytes sheet.now }
    ensures upper_bound { result < 65536 }
{
    if ends_with(sheet, b"WSH2") {
        return sheet_columns(sheet) as usize;
    }
    0
}

// How many bytes a sheet's body is to have.
pub fn sheet_back(sheet: &[u8]) -> usize
    requires { 16 ≤ length sheet.now }
    ensures { result ≡ sheet_back sheet.now }
{
    2 * (sheet_columns(sheet) as usize) + factor_bytes(sheet)
}

// The offset of a sheet's target.
pub fn sheet_body(sheet: &[u8]) -> usize
    requires { SheetWhole sheet.now }
    ensures { result ≡ target_offset sheet.now }
{
    sheet.len() - 16 - sheet_back(sheet)
}
