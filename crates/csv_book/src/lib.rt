// The fleet book of a CSV: from the bytes of a spreadsheet to the file that a search reads.
//
// Entry, which asks nothing of its caller: csv_book.
#![tactic(auto)]

ghost use Rattle.std.specs.Prelude.{◌≡◌, length, take};
ghost use Rattle.csv_fleet_tokens.specs.Faults.{fault_number};
ghost use Rattle.csv_book.specs.Books.{unmade, numbered, nothing_made, book_made, output_by};
ghost use Rattle.csv_book.specs.Promise.{BookRight};

use csv_fleet_tokens::Fault;
use csv_front_text::Front;

// A book of `len` bytes with so many boats and columns, and this of the CSV in front of it.
#[derive(Clone, Copy)]
pub struct Made {
    pub len: usize,
    pub boats: usize,
    pub columns: usize,
    pub front: Front,
}

// Why no book was made. The place is a line and a field of the CSV, or 0 and 0 where no line was read, and the boats and columns are those that
// were read before it.
#[derive(Clone, Copy)]
pub struct Finding {
    pub fault: Fault,
    pub line: usize,
    pub field: usize,
    pub boats: usize,
    pub columns: usize,
}

// A fault that is seen before a line is read.
fn at_once(fault: Fault) -> Finding
    ensures { unmade result ≡ nothing_made (fault_number fault) 0 0 0 0 }
{
    Finding {
        fault,
        line: 0,
        field: 0,
        boats: 0,
        columns: 0,
    }
}

// ENTRY. Puts the fleet book of a CSV, with front text, into a buffer from its first byte on. Where there is a fault, no byte is written.
pub fn csv_book(csv: &[u8], output: &mut [u8]) -> Result<Made, Finding>
    ensures value { numbered result ≡ book_made (length output.old) csv.now }
    ensures output_after { output.new ≡ output_by (numbered result).fault csv.now output.old }
    ensures book_right { BookRight csv.now (numbered result) (take (numbered result).len output.new) }
{
    if output.len() < 40000 {
        return Err(at_once(Fault::Room));
    }
    if 200000 < csv.len() {
        return Err(at_once(Fault::Big));
    }
    let mut book = [0u8; 32780];
    let fleet = csv_fleet_reader::read_fleet(csv, &mut book);
    let table = fleet.table;
    if let Some(fault) = table.fault {
        return Err(Finding {
            fault,
            line: fleet.line,
            field: table.field,
            boats: table.boats,
            columns: table.columns,
        });
    }
    let body = 2 * fleet.values;
    book_output::put_book_trailer(&mut book, body, table.boats, table.columns);
    let len = body + 12;
    let written = csv_front_text::put_with_front(csv, output, &book[..len]);
    let front = written.front;
    Ok(Made {
        len: written.len,
        boats: table.boats,
        columns: table.columns,
        front,
    })
}
