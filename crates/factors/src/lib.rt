// The factors of a sheet: how often each column counts in a squared distance.
//
// Helpers for other crates, whose callers prove what they require: factors_of, total, factor_total, is_plain.
#![tactic(auto)]

ghost use Rattle.std.specs.Prelude.{◌≡◌, true, ◌≤◌, length};
ghost use Rattle.frank_wolfe.specs.Vectors.{sum};
ghost use Rattle.files.specs.Sheet.{WSH2, sheet_lettered, SheetWhole};
ghost use Rattle.files.specs.Sheet as Sheets;
ghost use Rattle.factors.specs.Factors.{all_ones};

// The factors of a sheet of the edition WSH2, one a column.
pub fn factors_of(sheet: &[u8]) -> &[u8]
    requires { SheetWhole sheet.now × (sheet_lettered WSH2 sheet.now ≡ true) }
    ensures { result.now ≡ (Sheets.sheet sheet.now).factors }
{
    let end = sheet.len() - 16;
    let from = end - files::sheet_columns(sheet) as usize;
    &sheet[from..end]
}

// The total of some factors.
pub fn total(list: &[u8]) -> usize
    requires { length list.now ≤ 65535 }
    ensures { result ≡ sum list.now }
{
    let mut n: usize = 0;
    for factor in list {
        n += *factor as usize;
    }
    n
}

// The total of a sheet's factors.
pub fn factor_total(sheet: &[u8]) -> usize
    requires { SheetWhole sheet.now }
    ensures { result ≡ sum (Sheets.sheet sheet.now).factors }
{
    let columns = files::sheet_columns(sheet) as usize;
    if files::ends_with(sheet, b"WSH2") {
        return total(factors_of(sheet));
    }
    columns
}

// Whether all factors are 1.
fn are_ones(list: &[u8]) -> bool
    ensures { result ≡ all_ones list.now }
{
    for factor in list {
        if *factor != 1 {
            return false;
        }
    }
    true
}

// Whether a sheet counts every column once.
pub fn is_plain(sheet: &[u8]) -> bool
    requires { SheetWhole sheet.now }
    ensures { result ≡ all_ones (Sheets.sheet sheet.now).factors }
{
    if files::ends_with(sheet, b"WSH2") {
        return are_ones(factors_of(sheet));
    }
    true
}
