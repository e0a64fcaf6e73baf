// The words of the lines about a fleet's CSV: what is wrong with it and where, once the names are found, and what stands in front of its book.
//
// Helpers for other crates: fault_of, wants_boat, wants_column, wants_value; line_of, whose callers prove that the names are short; with_place,
// with_plain, with_unnamed, with_many, with_front, whose callers prove that there is room.
#![tactic(auto)]

ghost use Rattle.std.specs.Prelude.{◌≡◌, ◌+◌, ◌≤◌, length, IfSome, IfNone};
ghost use Rattle.text.specs.Texts.{text_limit, Holds, Adds};
ghost use Rattle.csv_fleet_tokens.specs.Faults.{fault_number};
ghost use Rattle.csv_book.specs.Books.{unmade};
ghost use Rattle.csv_book_words.specs.Faults.{NoFault};
ghost use Rattle.csv_book_words.specs.Words.{place, other_words, plain_words, few_words, unnamed_words, many_words, words, wants_boat, wants_column, wants_value, fault_line, front_line};

use csv_book::Finding;
use csv_fleet_tokens::Fault;
use csv_front_text::Front;
use text::Text;

// The fault that has this number, where one has.
pub fn fault_of(number: u32) -> Option<Fault>
    ensures known { IfSome result (λ fault. fault_number fault ≡ number) }
    ensures unknown { IfNone result (NoFault number) }
{
    match number {
        1 => Some(Fault::Long),
        2 => Some(Fault::Nameless),
        3 => Some(Fault::Columnless),
        4 => Some(Fault::Many),
        5 => Some(Fault::NoValue),
        6 => Some(Fault::NotWhole),
        7 => Some(Fault::OutOfRange),
        8 => Some(Fault::Boats),
        9 => Some(Fault::Boatless),
        10 => Some(Fault::Big),
        11 => Some(Fault::Room),
        12 => Some(Fault::Fleet),
        13 => Some(Fault::Rows),
        14 => Some(Fault::Again),
        15 => Some(Fault::NoHull),
        16 => Some(Fault::NoSteps),
        17 => Some(Fault::NoTolerance),
        18 => Some(Fault::Missing),
        19 => Some(Fault::Twice),
        20 => Some(Fault::Unknown),
        21 => Some(Fault::FleetTwice),
        22 => Some(Fault::FactorTotal),
        23 => Some(Fault::LargeTolerance),
        24 => Some(Fault::ManyValues),
        260 => Some(Fault::Stray),
        261 => Some(Fault::Open),
        _ => None,
    }
}

// The text followed by the number of a line, where there is one.
pub fn with_place(text: Text, line: usize) -> Text
    requires { text.len + 26 ≤ text_limit }
    ensures adds { Adds text (place line) result }
    ensures len_bound { result.len ≤ text.len + 26 }
{
    if line == 0 {
        return text;
    }
    let begun = text.with_bytes(b" line ");
    begun.with_number(line as u64)
}

// The same for faults of the whole CSV and of quotes.
#[tactic(auto, unfolding(crate::specs::Words::other_words))]
fn with_other(text: Text, fault: Fault) -> Text
    requires { text.len + 40 ≤ text_limit }
    ensures adds { Adds text (other_words (fault_number fault)) result }
    ensures len_bound { result.len ≤ text.len + 40 }
{
    match fault {
        Fault::Boatless => text.with_bytes(b"no boat"),
        Fault::Big => text.with_bytes(b"more than 200000 bytes"),
        Fault::Room => text.with_bytes(b"a buffer of fewer than 40000 bytes"),
        Fault::Stray => text.with_bytes(b"text after a closing quote"),
        Fault::Open => text.with_bytes(b"a quote that is not closed"),
        _ => text.with_bytes(b"no fault"),
    }
}

// The text followed by the words of a fault that has no numbers.
#[tactic(auto, unfolding(crate::specs::Words::plain_words))]
pub fn with_plain(text: Text, fault: Fault) -> Text
    requires { text.len + 40 ≤ text_limit }
    ensures adds { Adds text (plain_words (fault_number fault)) result }
    ensures len_bound { result.len ≤ text.len + 40 }
{
    match fault {
        Fault::Long => text.with_bytes(b"a field of more than 200 bytes"),
        Fault::Nameless => text.with_bytes(b"the boat has no name"),
        Fault::Columnless => text.with_bytes(b"no column"),
        Fault::Many => text.with_bytes(b"more than 64 columns"),
        Fault::Boats => text.with_bytes(b"more than 256 boats"),
        _ => with_other(text, fault),
    }
}

// The text followed by how many values there are, of how many.
fn with_few(text: Text, field: usize, columns: usize) -> Text
    requires { text.len + 60 ≤ text_limit }
    ensures adds { Adds text (few_words field columns) result }
    ensures len_bound { result.len ≤ text.len + 60 }
{
    let first = text.with_number(field as u64);
    let between = first.with_bytes(b" of ");
    let second = between.with_number(columns as u64);
    second.with_bytes(b" values")
}

// The text followed by the number of a column without a name.
pub fn with_unnamed(text: Text, field: usize) -> Text
    requires { text.len + 60 ≤ text_limit }
    ensures adds { Adds text (unnamed_words field) result }
    ensures len_bound { result.len ≤ text.len + 60 }
{
    let begun = text.with_bytes(b"column ");
    let numbered = begun.with_number(field as u64);
    numbered.with_bytes(b" has no name")
}

// The text followed by how many values there may be.
pub fn with_many(text: Text, columns: usize) -> Text
    requires { text.len + 60 ≤ text_limit }
    ensures adds { Adds text (many_words columns) result }
    ensures len_bound { result.len ≤ text.len + 60 }
{
    let begun = text.with_bytes(b"more than ");
    let numbered = begun.with_number(columns as u64);
    numbered.with_bytes(b" values")
}

// The text followed by what is wrong.
#[tactic(auto, unfolding(crate::specs::Words::words))]
fn with_words(text: Text, fault: Fault, field: usize, columns: usize, value: &[u8]) -> Text
    requires { text.len + length value.now + 60 ≤ text_limit }
    ensures adds { Adds text (words (fault_number fault) field columns value.now) result }
    ensures len_bound { result.len ≤ text.len + length value.now + 60 }
{
    match fault {
        Fault::NotWhole => {
            message_parts::with_shown(text, value).with_bytes(b" is not a whole number")
        }
        Fault::OutOfRange => {
            message_parts::with_shown(text, value).with_bytes(b" is not from -2000 to 2000")
        }
        Fault::NoValue => with_few(text, field, columns),
        Fault::Nameless if columns == 0 => with_unnamed(text, field),
        Fault::Many if columns != 0 => with_many(text, columns),
        _ => with_plain(text, fault),
    }
}

#[tactic(auto, unfolding(crate::specs::Words::wants_boat))]
pub fn wants_boat(fault: Fault, field: usize, columns: usize) -> bool
    ensures { result ≡ wants_boat (fault_number fault) field columns }
{
    if columns == 0 {
        return false;
    }
    if field == 0 {
        return fault == Fault::NoValue;
    }
    true
}

#[tactic(auto, unfolding(crate::specs::Words::wants_column))]
pub fn wants_column(fault: Fault, field: usize, columns: usize) -> bool
    ensures { result ≡ wants_column (fault_number fault) field columns }
{
    if columns == 0 {
        return false;
    }
    if field == 0 {
        return false;
    }
    match fault {
        Fault::Many | Fault::NoValue => false,
        _ => true,
    }
}

#[tactic(auto, unfolding(crate::specs::Words::wants_value))]
pub fn wants_value(fault: Fault) -> bool
    ensures { result ≡ wants_value (fault_number fault) }
{
    match fault {
        Fault::NotWhole | Fault::OutOfRange => true,
        _ => false,
    }
}

// The line, once the names are found.
pub fn line_of(finding: Finding, boat: &[u8], column: &[u8], value: &[u8]) -> Text
    requires boat_len_bound { length boat.now ≤ 200 }
    requires column_len_bound { length column.now ≤ 200 }
    requires value_len_bound { length value.now ≤ 200 }
    ensures { Holds (fault_line (unmade finding) boat.now column.now value.now) result }
{
    let empty = Text::empty();
    let begun = empty.with_bytes(b"fleet.csv");
    let placed = with_place(begun, finding.line);
    let named = message_parts::with_part(placed, boat);
    let whole = message_parts::with_part(named, column);
    let told = whole.with_bytes(b": ");
    let said = with_words(told, finding.fault, finding.field, finding.columns, value);
    said.with_bytes(b"\n")
}

// The text followed by the line of the front text.
pub fn with_front(text: Text, front: Front) -> Text
    requires { text.len + 20 ≤ text_limit }
    ensures { Adds text (front_line front) result }
{
    match front {
        Front::Whole => text.with_bytes(b"front csv\n"),
        Front::Names => text.with_bytes(b"front names\n"),
        Front::Nothing => text.with_bytes(b"front nothing\n"),
    }
}
