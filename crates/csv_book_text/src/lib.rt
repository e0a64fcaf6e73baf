// The lines about a fleet's CSV: that of its fault, with file, line, boat, column and what is wrong there, or those of its book.
//
// Entries, which ask nothing of their caller: fleet_fault, book_lines.
#![tactic(auto)]

ghost use Rattle.std.specs.Prelude.{◌≡◌, ◌≤◌, List, ℕ, length};
ghost use Rattle.buffers.specs.Placed.{placed};
ghost use Rattle.text.specs.Texts.{Holds};
ghost use Rattle.csv_fleet_tokens.specs.Faults.{fault_number};
ghost use Rattle.csv_book.specs.Books.{nothing_made, unmade, made_of};
ghost use Rattle.csv_book_text.specs.Faults.{looked, fleet_fault, book_lines};
ghost use Rattle.csv_book_text.specs.Numbered.{by_number};

use csv_book::{Finding, Made};
use csv_fleet_tokens::Fault;
use text::Text;

// Why no book was made, as csv_book says it, with the fault by its number. Any number may stand there.
#[derive(Clone, Copy, Debug, PartialEq, Eq)]
pub struct NumberedFinding {
    pub fault: u32,
    pub line: usize,
    pub field: usize,
    pub boats: usize,
    pub columns: usize,
}

impl From<Finding> for NumberedFinding {
    ghost from_gives = { λ finding numbered. by_number numbered ≡ unmade finding };

    fn from(finding: Finding) -> NumberedFinding {
        NumberedFinding {
            fault: finding.fault.number(),
            line: finding.line,
            field: finding.field,
            boats: finding.boats,
            columns: finding.columns,
        }
    }
}

// Puts what stands in a field, where it is wanted and the CSV is not too long; gives back how many bytes that is.
fn put_looked(csv: &[u8], wanted: bool, line: usize, field: usize, output: &mut [u8]) -> usize
    requires { 200 ≤ length output.old }
    ensures value { result ≡ length (looked wanted line field csv.now) }
    ensures output_after { output.new ≡ placed output.old 0 (looked wanted line field csv.now) }
{
    if !wanted {
        return 0;
    }
    if 200000 < csv.len() {
        return 0;
    }
    csv_fields::put_field(csv, line, field, output)
}

// The line that names the fault of a CSV.
fn known_fault(csv: &[u8], finding: Finding) -> Text
    ensures { Holds (fleet_fault csv.now (unmade finding)) result }
{
    let fault = finding.fault;
    let line = finding.line;
    let field = finding.field;
    let columns = finding.columns;
    let mut boat = [0u8; 200];
    let mut column = [0u8; 200];
    let mut value = [0u8; 200];
    let boat_wanted = csv_book_words::wants_boat(fault, field, columns);
    let n = put_looked(csv, boat_wanted, line, 0, &mut boat);
    let column_wanted = csv_book_words::wants_column(fault, field, columns);
    let m = put_looked(csv, column_wanted, 0, field, &mut column);
    let value_wanted = csv_book_words::wants_value(fault);
    let k = put_looked(csv, value_wanted, line, field, &mut value);
    csv_book_words::line_of(finding, &boat[..n], &column[..m], &value[..k])
}

// A fault that has the same line as this number. That of the fleet has no words here, as a number that no fault has.
fn worded(number: u32) -> Fault
    ensures { (csv : List ℕ) (line field boats columns : ℕ) → fleet_fault csv (nothing_made (fault_number result) line field boats columns) ≡ fleet_fault csv (nothing_made number line field boats columns) }
{
    match csv_book_words::fault_of(number) {
        Some(fault) => fault,
        None => Fault::Fleet,
    }
}

// ENTRY. The line that names the fault of a CSV, as csv_book gave it back; of a number that no fault has, `no fault`.
pub fn fleet_fault(csv: &[u8], finding: NumberedFinding) -> Text
    ensures { Holds (fleet_fault csv.now (by_number finding)) result }
{
    let known = Finding {
        fault: worded(finding.fault),
        line: finding.line,
        field: finding.field,
        boats: finding.boats,
        columns: finding.columns,
    };
    known_fault(csv, known)
}

// ENTRY. The lines of a book that was made of a CSV.
pub fn book_lines(made: Made) -> Text
    ensures { Holds (book_lines (made_of made)) result }
{
    let front = made.front;
    let empty = Text::empty();
    let counted = empty.with_pair(b"fleet ", made.boats as u64, made.columns as u64);
    csv_book_words::with_front(counted, front)
}
