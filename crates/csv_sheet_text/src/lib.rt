// The lines about a sheet's CSV: that of its fault, with file, line, row, column and what is wrong there, or those of its sheet.
//
// Entries, which ask nothing of their caller: sheet_fault, sheet_lines.
#![tactic(auto)]

ghost use Rattle.std.specs.Prelude.{◌≡◌, ◌≤◌, length};
ghost use Rattle.buffers.specs.Placed.{placed};
ghost use Rattle.text.specs.Texts.{Holds};
ghost use Rattle.csv_sheet.specs.Outcomes.{refused, written};
ghost use Rattle.csv_sheet_text.specs.Lines.{looked, row_fault, column_fault, sheet_fault, sheet_lines};
ghost use Rattle.csv_sheet_text.specs.Numbered.{by_number};

use csv_fleet_tokens::Fault;
use csv_front_text::Front;
use csv_sheet::Made;
use csv_sheet_rows::Finding;
use text::Text;

// The first fault of a sheet's CSV with its place, as csv_sheet says it, with the fault by its number. Any number may stand there.
#[derive(Clone, Copy, Debug, PartialEq, Eq)]
pub struct NumberedFinding {
    pub fault: u32,
    pub line: usize,
    pub row: usize,
    pub field: usize,
}

impl From<Finding> for NumberedFinding {
    ghost from_gives = { λ finding numbered. by_number numbered ≡ refused finding };

    fn from(finding: Finding) -> NumberedFinding {
        NumberedFinding {
            fault: finding.fault.number(),
            line: finding.line,
            row: finding.row,
            field: finding.field,
        }
    }
}

// Puts what stands in a field, where it is wanted and the CSV is not too long; gives back how many bytes that is.
fn put_looked(csv: &[u8], wanted: bool, row: usize, field: usize, output: &mut [u8]) -> usize
    requires { 200 ≤ length output.old }
    ensures value { result ≡ length (looked wanted row field csv.now) }
    ensures output_after { output.new ≡ placed output.old 0 (looked wanted row field csv.now) }
{
    if !wanted {
        return 0;
    }
    if 200000 < csv.len() {
        return 0;
    }
    csv_cells::put_cell(csv, row, field, output)
}

// The line of a fault that is none of the columns'.
fn row_fault(csv: &[u8], finding: Finding) -> Text
    ensures { Holds (row_fault csv.now (refused finding)) result }
{
    let fault = finding.fault;
    let line = finding.row;
    let field = finding.field;
    let mut row = [0u8; 200];
    let mut column = [0u8; 200];
    let mut value = [0u8; 200];
    let n = put_looked(csv, csv_sheet_words::wants_row(fault), line, 0, &mut row);
    let kind = csv_sheet_rows::kind_of(&row[..n]);
    let m = put_looked(
        csv,
        csv_sheet_words::wants_column(fault, kind),
        0,
        field,
        &mut column,
    );
    let k = put_looked(
        csv,
        csv_book_words::wants_value(fault),
        line,
        field,
        &mut value,
    );
    csv_sheet_words::row_line(finding, kind, &row[..n], &column[..m], &value[..k])
}

// The line of a column that is not matched, found in the CSV that has it.
fn column_fault(fleet: &[u8], csv: &[u8], finding: Finding) -> Text
    ensures { Holds (column_fault fleet.now csv.now (refused finding)) result }
{
    let fault = finding.fault;
    let field = finding.field;
    let mut name = [0u8; 200];
    if let Fault::Unknown = fault {
        let n = put_looked(csv, true, 0, field, &mut name);
        return csv_sheet_words::column_line(fault, &name[..n]);
    }
    let n = put_looked(fleet, true, 0, field, &mut name);
    csv_sheet_words::column_line(fault, &name[..n])
}

// The line that names the fault of a sheet's CSV.
#[tactic(auto, unfolding(crate::specs::Lines::sheet_fault, files::specs::Bytes::between))]
fn known_fault(fleet: &[u8], csv: &[u8], finding: Finding) -> Text
    ensures { Holds (sheet_fault fleet.now csv.now (refused finding)) result }
{
    match finding.fault {
        Fault::Fleet => Text::empty(),
        Fault::Missing | Fault::Twice | Fault::Unknown | Fault::FleetTwice => {
            column_fault(fleet, csv, finding)
        }
        _ => row_fault(csv, finding),
    }
}

// ENTRY. The line that names the fault of a sheet's CSV, as csv_sheet gave it back; of a number that no fault has, `no fault`. A fault of the fleet's CSV has none here:
// fleet_fault of csv_book_text has it.
pub fn sheet_fault(fleet: &[u8], csv: &[u8], finding: NumberedFinding) -> Text
    ensures { Holds (sheet_fault fleet.now csv.now (by_number finding)) result }
{
    match csv_book_words::fault_of(finding.fault) {
        Some(fault) => {
            let known = Finding {
                fault,
                line: finding.line,
                row: finding.row,
                field: finding.field,
            };
            known_fault(fleet, csv, known)
        }
        None => csv_sheet_words::no_fault(finding.line),
    }
}

// ENTRY. The lines of a sheet that was made of two CSVs.
pub fn sheet_lines(made: Made) -> Text
    ensures { Holds (sheet_lines (written made)) result }
{
    let empty = Text::empty();
    let counted = empty.with_line(b"sheet ", made.columns as u64);
    let weighed = counted.with_line(b"factors ", made.factors as u64);
    let limited = weighed.with_line(b"steps ", made.steps as u64);
    let judged = limited.with_line(b"tolerance ", made.tolerance as u64);
    csv_book_words::with_front(judged, Front::Whole)
}
