// Whether a fleet book or a sheet is what the CSVs beside it make.
//
// Entries, which ask nothing of their caller: is_book_of, is_sheet_of.
#![tactic(auto)]

ghost use Rattle.std.specs.Prelude.{◌≡◌};
ghost use Rattle.csv_origin.specs.Origin.{book_of, edition_of, front_of, sheet_of};

use csv_fleet_tokens::Fault;
use equal_bytes::is_same;

// ENTRY. Whether a book is, byte for byte, the one that csv_book makes of a CSV. A CSV with a fault makes none.
pub fn is_book_of(csv: &[u8], book: &[u8]) -> bool
    ensures { result ≡ book_of csv.now book.now }
{
    let mut output = [0u8; 40000];
    match csv_book::csv_book(csv, &mut output) {
        Ok(made) => is_same(&output[..made.len], book),
        Err(_finding) => false,
    }
}

// Whether a sheet is the one that was made, or that one in its other edition.
fn is_edition_of(made: &[u8], sheet: &[u8]) -> bool
    ensures { result ≡ edition_of made.now sheet.now }
{
    if is_same(made, sheet) {
        return true;
    }
    let mut output = [0u8; 40000];
    match other_edition::other_edition(made, &mut output) {
        Ok(e) => is_same(&output[..e.size], sheet),
        Err(_) => false,
    }
}

// Whether a CSV is the front text of a sheet that is not refused.
fn is_front_of(csv: &[u8], sheet: &[u8]) -> bool
    ensures { result ≡ front_of csv.now sheet.now }
{
    if validation::sheet_refusal_in(sheet, 1, 64).is_err() {
        return false;
    }
    let at = files::sheet_body(sheet);
    is_same(&sheet[..at], csv)
}

// ENTRY. Whether a sheet is the one that csv_sheet makes of a fleet's CSV and a sheet's, in either edition. Where the fleet's CSV has a fault, as one
// without a byte has: whether the sheet's CSV is its front text. A sheet's CSV with a fault makes none.
pub fn is_sheet_of(fleet: &[u8], csv: &[u8], sheet: &[u8]) -> bool
    ensures { result ≡ sheet_of fleet.now csv.now sheet.now }
{
    let mut output = [0u8; 40000];
    match csv_sheet::csv_sheet(fleet, csv, &mut output) {
        Ok(made) => is_edition_of(&output[..made.len], sheet),
        Err(finding) => {
            if finding.fault == Fault::Fleet {
                return is_front_of(csv, sheet);
            }
            false
        }
    }
}
