// The words of the lines about a sheet's CSV: what is wrong with it and where, once the names are found.
//
// Helpers for other crates: wants_row, wants_column, no_fault; row_line, column_line, whose callers prove that the names are short.
#![tactic(auto)]

ghost use Rattle.std.specs.Prelude.{◌≡◌, ◌+◌, ◌≤◌, length};
ghost use Rattle.text.specs.Texts.{text_limit, Holds, Adds};
ghost use Rattle.csv_fleet_tokens.specs.Faults.{fault_number};
ghost use Rattle.csv_sheet.specs.Outcomes.{refused};
ghost use Rattle.csv_sheet_rows.specs.Numbers.{kind_number};
ghost use Rattle.csv_sheet_words.specs.Words.{range_words, beyond_words, again_words, nameless_words, missing_words, limit_words, words, of_value, wants_row, wants_column, row_line, no_fault, opening, closing, column_line};

use csv_fleet_tokens::Fault;
use csv_sheet_rows::{Finding, Kind};
use text::Text;

// The text followed by from where to where the numbers of a row go.
#[tactic(auto, unfolding(crate::specs::Words::range_words))]
fn with_range(text: Text, kind: Kind) -> Text
    requires { text.len + 50 ≤ text_limit }
    ensures adds { Adds text (range_words (kind_number kind)) result }
    ensures len_bound { result.len ≤ text.len + 50 }
{
    match kind {
        Kind::Hull => text.with_bytes(b" is not from -2000 to 2000"),
        Kind::Factors => text.with_bytes(b" is not from 0 to 64"),
        Kind::Steps => text.with_bytes(b" is not from 1 to 360"),
        Kind::Tolerance => text.with_bytes(b" is not from 0 to 1024000000"),
        _ => text.with_bytes(b" is not from 0 to 32000"),
    }
}

// The text followed by how many values a row may have, where `field` is the first beyond them.
fn with_beyond(text: Text, field: usize) -> Text
    requires { text.len + 60 ≤ text_limit }
    ensures adds { Adds text (beyond_words field) result }
    ensures len_bound { result.len ≤ text.len + 60 }
{
    if field < 3 {
        return text.with_bytes(b"more than one value");
    }
    csv_book_words::with_many(text, field - 1)
}

// The text followed by what is wrong with a second row of a kind.
#[tactic(auto, unfolding(crate::specs::Words::again_words))]
fn with_again(text: Text, kind: Kind) -> Text
    requires { text.len + 50 ≤ text_limit }
    ensures adds { Adds text (again_words (kind_number kind)) result }
    ensures len_bound { result.len ≤ text.len + 50 }
{
    if kind == Kind::Hull {
        return text.with_bytes(b"a second hull, or a word that is not known");
    }
    text.with_bytes(b"this line again")
}

// The text followed by what has no name: the hull, or a column.
fn with_nameless(text: Text, field: usize) -> Text
    requires { text.len + 60 ≤ text_limit }
    ensures adds { Adds text (nameless_words field) result }
    ensures len_bound { result.len ≤ text.len + 60 }
{
    if field == 0 {
        return text.with_bytes(b"the hull has no name");
    }
    csv_book_words::with_unnamed(text, field)
}

// The text followed by which row is missing, or by words that a fleet's faults have too.
#[tactic(auto, unfolding(crate::specs::Words::missing_words))]
fn with_missing(text: Text, fault: Fault) -> Text
    requires { text.len + 50 ≤ text_limit }
    ensures adds { Adds text (missing_words (fault_number fault)) result }
    ensures len_bound { result.len ≤ text.len + 50 }
{
    match fault {
        Fault::NoHull => text.with_bytes(b"no hull"),
        Fault::NoSteps => text.with_bytes(b"no line \"steps\""),
        Fault::NoTolerance => text.with_bytes(b"no line \"tolerance\""),
        _ => csv_book_words::with_plain(text, fault),
    }
}

// The text followed by the limit that was passed, or by the words of another fault without numbers.
#[tactic(auto, unfolding(crate::specs::Words::limit_words))]
fn with_limit(text: Text, fault: Fault) -> Text
    requires { text.len + 50 ≤ text_limit }
    ensures adds { Adds text (limit_words (fault_number fault)) result }
    ensures len_bound { result.len ≤ text.len + 50 }
{
    match fault {
        Fault::Many => text.with_bytes(b"more than 65 fields"),
        Fault::Big => text.with_bytes(b"more than 39000 bytes"),
        Fault::Rows => text.with_bytes(b"more than 16 lines"),
        Fault::FactorTotal => text.with_bytes(b"the factors do not total 1 to 64"),
        Fault::LargeTolerance => text.with_bytes(b"a tolerance above 1024000000"),
        _ => with_missing(text, fault),
    }
}

// The text followed by what is wrong.
#[tactic(auto, unfolding(crate::specs::Words::words))]
fn with_words(text: Text, fault: Fault, field: usize, kind: Kind, value: &[u8]) -> Text
    requires { text.len + length value.now + 60 ≤ text_limit }
    ensures adds { Adds text (words (fault_number fault) field (kind_number kind) value.now) result }
    ensures len_bound { result.len ≤ text.len + length value.now + 60 }
{
    match fault {
        Fault::NoValue => text.with_bytes(b"no value"),
        Fault::NotWhole => {
            message_parts::with_shown(text, value).with_bytes(b" is not a whole number")
        }
        Fault::OutOfRange => with_range(message_parts::with_shown(text, value), kind),
        Fault::ManyValues => with_beyond(text, field),
        Fault::Again => with_again(text, kind),
        Fault::Nameless => with_nameless(text, field),
        _ => with_limit(text, fault),
    }
}

// The text followed by the file of a column, up to the column's name.
#[tactic(auto, unfolding(crate::specs::Words::opening))]
fn with_opening(text: Text, fault: Fault) -> Text
    requires { text.len + 50 ≤ text_limit }
    ensures adds { Adds text (opening (fault_number fault)) result }
    ensures len_bound { result.len ≤ text.len + 50 }
{
    match fault {
        Fault::Missing => text.with_bytes(b"sheet.csv: no column \""),
        Fault::FleetTwice => text.with_bytes(b"fleet.csv: column \""),
        _ => text.with_bytes(b"sheet.csv: column \""),
    }
}

// The text followed by what is wrong with a column, from the end of its name on.
#[tactic(auto, unfolding(crate::specs::Words::closing))]
fn with_closing(text: Text, fault: Fault) -> Text
    requires { text.len + 50 ≤ text_limit }
    ensures adds { Adds text (closing (fault_number fault)) result }
    ensures len_bound { result.len ≤ text.len + 50 }
{
    match fault {
        Fault::Missing => text.with_bytes(b"\""),
        Fault::Unknown => text.with_bytes(b"\" is not in fleet.csv"),
        _ => text.with_bytes(b"\" twice"),
    }
}

// Whether a value is wrong.
#[tactic(auto, unfolding(crate::specs::Words::of_value, files::specs::Bytes::between))]
fn of_value(fault: Fault) -> bool
    ensures { result ≡ of_value (fault_number fault) }
{
    matches!(fault, Fault::NoValue | Fault::NotWhole | Fault::OutOfRange)
}

#[tactic(auto, unfolding(crate::specs::Words::wants_row))]
pub fn wants_row(fault: Fault) -> bool
    ensures { result ≡ wants_row (fault_number fault) }
{
    of_value(fault) || matches!(fault, Fault::Again | Fault::ManyValues)
}

#[tactic(auto, unfolding(crate::specs::Words::wants_column))]
pub fn wants_column(fault: Fault, kind: Kind) -> bool
    ensures { result ≡ wants_column (fault_number fault) (kind_number kind) }
{
    of_value(fault) && matches!(kind, Kind::Hull | Kind::Factors)
}

// The line of a fault in a row, once the names are found.
pub fn row_line(finding: Finding, kind: Kind, row: &[u8], column: &[u8], value: &[u8]) -> Text
    requires row_len_bound { length row.now ≤ 200 }
    requires column_len_bound { length column.now ≤ 200 }
    requires value_len_bound { length value.now ≤ 200 }
    ensures { Holds (row_line (refused finding) (kind_number kind) row.now column.now value.now) result }
{
    let empty = Text::empty();
    let begun = empty.with_bytes(b"sheet.csv");
    let placed = csv_book_words::with_place(begun, finding.line);
    let named = message_parts::with_part(placed, row);
    let whole = message_parts::with_part(named, column);
    let told = whole.with_bytes(b": ");
    let said = with_words(told, finding.fault, finding.field, kind, value);
    said.with_bytes(b"\n")
}

// The line of a number that no fault has.
pub fn no_fault(line: usize) -> Text
    ensures { Holds (no_fault line) result }
{
    let empty = Text::empty();
    let begun = empty.with_bytes(b"sheet.csv");
    let placed = csv_book_words::with_place(begun, line);
    placed.with_bytes(b": no fault\n")
}

// The line of a column, once its name is found.
pub fn column_line(fault: Fault, name: &[u8]) -> Text
    requires { length name.now ≤ 200 }
    ensures { Holds (column_line (fault_number fault) name.now) result }
{
    let empty = Text::empty();
    let begun = with_opening(empty, fault);
    let named = message_parts::with_shown(begun, name);
    let told = with_closing(named, fault);
    told.with_bytes(b"\n")
}
