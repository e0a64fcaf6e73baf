// The line of a sheet's conversion, and what is known of a refusal in one line for standard error.
//
// Entries, which ask nothing of their caller: edition_line, edition_detail. Helper for other crates, whose callers prove what it requires:
// known_detail.
#![tactic(auto)]

ghost use Rattle.std.specs.Prelude.{◌≡◌, false, ◌≤◌, ◌<◌, length};
ghost use Rattle.refusals.specs.Numbers.{number, refusal_number};
ghost use Rattle.files.specs.Sheet as Sheets;
ghost use Rattle.files.specs.Sheet.{sheet_refusal_in};
ghost use Rattle.factors.specs.Factors.{all_ones};
ghost use Rattle.files.specs.Limits.{file_limit};
ghost use Rattle.editions.specs.Rewritten.{rewritten_by};
ghost use Rattle.editions.specs.Rewriting.{other_edition, edition_refusal};
ghost use Rattle.text.specs.Texts.{Holds};
ghost use Rattle.edition_text.specs.Lines.{edition_line, first_other, columns_line, factor_line, size_line, edition_detail};

use editions::Edition;
use refusals::Refusal;
use text::Text;

// The most bytes a file may have.
const MOST_BYTES: usize = 40000;

// ENTRY. The line of what a conversion gave back: the edition and its bytes, or the number that refuses it.
pub fn edition_line(given: Result<Edition, u32>) -> Text
    ensures { Holds (edition_line (rewritten_by given)) result }
{
    match given {
        Ok(e) => Text::empty().with_pair(b"edition ", e.number as u64, e.size as u64),
        Err(n) => Text::empty().with_line(b"refused ", n as u64),
    }
}

// How many factors are 1 before the first that is not.
fn first_other(list: &[u8]) -> usize
    ensures { result ≡ first_other list.now }
{
    for (i, factor) in list.iter().enumerate() {
        if *factor != 1 {
            return i;
        }
    }
    list.len()
}

// The line of a sheet with no columns or more than 64.
fn columns_line(sheet: &[u8]) -> Text
    requires { 16 ≤ length sheet.now }
    ensures { Holds (columns_line sheet.now) result }
{
    let begun = Text::empty().with_bytes(b"sheet.wsh has ");
    let counted = begun.with_number(files::sheet_columns(sheet) as u64);
    let told = counted.with_bytes(b" columns, not 1 to 64");
    told.with_bytes(b"\n")
}

// The line of the first factor other than 1.
fn factor_line(sheet: &[u8]) -> Text
    requires sheet_value { sheet_refusal_in 1 64 sheet.now ≡ 0 }
    requires sheet_value_2 { all_ones (Sheets.sheet sheet.now).factors ≡ false }
    ensures { Holds (factor_line sheet.now) result }
{
    let list = factors::factors_of(sheet);
    let k = first_other(list);
    let begun = Text::empty().with_bytes(b"sheet.wsh, column ");
    let column = begun.with_number(k as u64 + 1);
    let told = column.with_bytes(b": the factor is ");
    let factor = told.with_number(list[k] as u64);
    let whole = factor.with_bytes(b", not 1");
    whole.with_bytes(b"\n")
}

// The line of a sheet whose other edition would be of this size.
fn size_line(sheet: &[u8], size: usize) -> Text
    requires { size ≡ length (other_edition sheet.now) }
    ensures { Holds (size_line sheet.now) result }
{
    let begun = Text::empty().with_bytes(b"other.wsh would have ");
    let counted = begun.with_number(size as u64);
    let told = counted.with_bytes(b" bytes, more than 40000");
    told.with_bytes(b"\n")
}

// What is known of a reason that refuses a sheet's conversion into an output of 40,000 bytes, in one line; no text where the number alone is
// known.
fn reason_detail(sheet: &[u8], refusal: Refusal) -> Text
    requires { number refusal ≡ edition_refusal sheet.now file_limit }
    ensures { Holds (edition_detail sheet.now (number refusal)) result }
{
    match refusal {
        Refusal::SheetColumns => columns_line(sheet),
        Refusal::EditionFactors => factor_line(sheet),
        Refusal::EditionRoom => {
            let number = other_edition::other_number(sheet);
            size_line(sheet, other_edition::other_size(sheet, number))
        }
        _ => Text::empty(),
    }
}

// What is known of a refusal of a sheet's conversion, in one line; no text where nothing is refused, or the number alone is known. The caller
// proves that this is what a conversion into an output of 40,000 bytes comes to, so the sheet is not judged again.
pub fn known_detail(sheet: &[u8], judged: Result<(), Refusal>) -> Text
    requires { refusal_number judged ≡ edition_refusal sheet.now file_limit }
    ensures { Holds (edition_detail sheet.now (refusal_number judged)) result }
{
    match judged {
        Ok(()) => Text::empty(),
        Err(refusal) => reason_detail(sheet, refusal),
    }
}

// ENTRY. What is known of the refusal of a sheet's conversion into an output of 40,000 bytes, in one line; no text where nothing is refused, or
// the number alone is known.
pub fn edition_detail(sheet: &[u8]) -> Text
    ensures { Holds (edition_detail sheet.now (edition_refusal sheet.now file_limit)) result }
{
    known_detail(sheet, other_edition::refusal_in(sheet, MOST_BYTES))
}
