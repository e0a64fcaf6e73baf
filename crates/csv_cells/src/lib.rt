// The fields of a CSV by place: how many rows it has, what stands in each field, the line of a row.
//
// Place::start asks nothing of its caller. Helpers for other crates, whose callers prove what they require: Place::moved,
// put_cell, scan, last_place, line_of, width.
#![tactic(auto)]

ghost use Rattle.std.specs.Prelude.{◌≡◌, ◌≤◌, ◌<◌, length};
ghost use Rattle.buffers.specs.Placed.{placed};
ghost use Rattle.csv_bytes.specs.Tokens.{token_number};
ghost use Rattle.csv_fields.specs.Fields.{bytes_of, byte_where};
ghost use Rattle.csv_fleet_tokens.specs.Faults.{fault_number, option_number};
ghost use Rattle.csv_cells.specs.Cells.{numbered, start, faulty, with_text, next_field, row_after, next_line, ended, consumed, moved, last_place, is_in, is_past, cell_text, line_at, line_of, width_at, width};

use csv_bytes::{Mode, Token};
use csv_fleet_tokens::Fault;

// Where a token stands: its line, counted from 1, the rows before its line, the fields before its field, the bytes of the field before it, and
// the first fault.
#[derive(Clone, Copy)]
pub struct Place {
    pub line: usize,
    pub row: usize,
    pub field: usize,
    pub size: usize,
    pub fault: Option<Fault>,
}

impl Place {
    // The place of the first token.
    pub fn start() -> Place
        ensures { numbered result ≡ start }
    {
        Place {
            line: 1,
            row: 0,
            field: 0,
            size: 0,
            fault: None,
        }
    }

    fn faulty(mut self, fault: Fault) -> Place
        ensures { numbered result ≡ faulty (numbered self) (fault_number fault) }
    {
        self.fault = Some(fault);
        self
    }

    // After a byte of a field.
    #[tactic(auto, unfolding(crate::specs::Cells::with_text))]
    fn with_text(self) -> Place
        ensures { numbered result ≡ with_text (numbered self) }
    {
        if self.size < 200 {
            return Place {
                line: self.line,
                row: self.row,
                field: self.field,
                size: self.size + 1,
                fault: None,
            };
        }
        self.faulty(Fault::Long)
    }

    #[tactic(auto, unfolding(crate::specs::Cells::next_field))]
    fn next_field(self) -> Place
        ensures { numbered result ≡ next_field (numbered self) }
    {
        if self.field < 64 {
            return Place {
                line: self.line,
                row: self.row,
                field: self.field + 1,
                size: 0,
                fault: None,
            };
        }
        self.faulty(Fault::Many)
    }

    // The rows before the next line. A line without bytes is no row.
    #[tactic(auto, unfolding(crate::specs::Cells::row_after))]
    fn row_after(self) -> usize
        requires { self.row < 4294967296 }
        ensures { result ≡ row_after (numbered self) }
    {
        if self.field != 0 {
            return self.row + 1;
        }
        if self.size != 0 {
            return self.row + 1;
        }
        self.row
    }

    #[tactic(auto, unfolding(crate::specs::Cells::next_line))]
    fn next_line(self) -> Place
        requires line_bound { self.line < 4294967296 }
        requires row_bound { self.row < 4294967296 }
        ensures { numbered result ≡ next_line (numbered self) }
    {
        Place {
            line: self.line + 1,
            row: self.row_after(),
            field: 0,
            size: 0,
            fault: None,
        }
    }

    // After the end of the text.
    #[tactic(auto, unfolding(crate::specs::Cells::ended))]
    fn ended(self) -> Place
        requires { self.row < 4294967296 }
        ensures { numbered result ≡ ended (numbered self) }
    {
        Place {
            line: self.line,
            row: self.row_after(),
            field: 0,
            size: 0,
            fault: None,
        }
    }

    #[tactic(auto, unfolding(crate::specs::Cells::consumed))]
    fn consumed(self, token: Token) -> Place
        requires line_bound { self.line < 4294967296 }
        requires row_bound { self.row < 4294967296 }
        ensures { numbered result ≡ consumed (numbered self) (token_number token) }
    {
        match token {
            Token::Byte(_) => self.with_text(),
            Token::Field => self.next_field(),
            Token::Line => self.next_line(),
            Token::End => self.ended(),
            Token::Nothing => self,
            Token::Stray => self.faulty(Fault::Stray),
            Token::Open => self.faulty(Fault::Open),
        }
    }

    // The place of the next token.
    #[tactic(auto, unfolding(crate::specs::Cells::moved))]
    pub fn moved(self, token: Token) -> Place
        requires line_bound { self.line < 4294967296 }
        requires row_bound { self.row < 4294967296 }
        ensures { numbered result ≡ moved (numbered self) (token_number token) }
    {
        match self.fault {
            Some(_) => self,
            None => self.consumed(token),
        }
    }
}

// The byte that a token is, where it is one of a field: `row` and `field` say which, `place` is the token's, and `fault` that of the place after it.
#[tactic(auto, unfolding(crate::specs::Cells::is_in))]
fn byte_in(row: usize, field: usize, place: Place, token: Token, fault: Option<Fault>) -> Option<u8>
    requires { option_number fault ≡ (moved (numbered place) (token_number token)).fault }
    ensures { bytes_of result ≡ byte_where (is_in row field (numbered place) (token_number token)) (token_number token) }
{
    let Token::Byte(b) = token else {
        return None;
    };
    if fault.is_some() {
        return None;
    }
    if place.row != row {
        return None;
    }
    if place.field == field { Some(b) } else { None }
}

// Whether no byte of a field is at a place or after it: the field is before the place, or there is a fault.
#[tactic(auto, unfolding(crate::specs::Cells::is_past))]
fn is_past(row: usize, field: usize, place: Place) -> bool
    ensures { result ≡ is_past row field (numbered place) }
{
    if place.fault.is_some() {
        return true;
    }
    if place.row == row {
        return field < place.field;
    }
    row < place.row
}

// Puts the bytes of a field of a row from the first byte on, at most 200; gives back how many.
pub fn put_cell(csv: &[u8], row: usize, field: usize, output: &mut [u8]) -> usize
    requires csv_len_bound { length csv.now ≤ 200000 }
    requires in_bounds { 200 ≤ length output.old }
    ensures value { result ≡ length (cell_text row field csv.now) }
    ensures upper_bound { result ≤ 200 }
    ensures output_after { output.new ≡ placed output.old 0 (cell_text row field csv.now) }
{
    let separator = csv_bytes::separator(csv);
    let mut place = Place::start();
    let mut mode = Mode::Start;
    let mut n = 0;
    for i in csv_bytes::mark_size(csv)..csv.len() {
        if is_past(row, field, place) {
            return n;
        }
        let step = csv_bytes::read_byte(separator, mode, csv[i]);
        let token = step.token;
        let next = place.moved(token);
        let byte = byte_in(row, field, place, token, next.fault);
        n = csv_fields::put_byte(output, n, byte);
        place = next;
        mode = step.mode;
    }
    n
}

// The line of a row as far as it is known: that of a token of the row, else what it was.
fn line_at(row: usize, line: usize, place: Place) -> usize
    ensures { result ≡ line_at row line (numbered place) }
{
    if place.row == row {
        return place.line;
    }
    line
}

// How many fields a row has as far as it is known: up to the field of a token that is a byte of the row, else what it was. `fault` is that of the
// place after the token.
fn width_at(row: usize, n: usize, place: Place, token: Token, fault: Option<Fault>) -> usize
    requires fault_value { option_number fault ≡ (moved (numbered place) (token_number token)).fault }
    requires field_bound { place.field ≤ 64 }
    ensures { result ≡ width_at row n (numbered place) (token_number token) }
{
    match byte_in(row, place.field, place, token, fault) {
        Some(_) => place.field + 1,
        None => n,
    }
}

// What a pass over a whole CSV finds: the last place, and the line and the width of a row.
#[derive(Clone, Copy)]
pub struct Scanned {
    pub place: Place,
    pub line: usize,
    pub width: usize,
}

// One pass over a CSV.
pub fn scan(csv: &[u8], row: usize) -> Scanned
    requires { length csv.now ≤ 200000 }
    ensures place_value { numbered result.place ≡ last_place csv.now }
    ensures line_value { result.line ≡ line_of row csv.now }
    ensures width_value { result.width ≡ width row csv.now }
    ensures width_bound { result.width ≤ 65 }
{
    let separator = csv_bytes::separator(csv);
    let mut place = Place::start();
    let mut mode = Mode::Start;
    let mut line = 0;
    let mut n = 0;
    for i in csv_bytes::mark_size(csv)..csv.len() {
        let step = csv_bytes::read_byte(separator, mode, csv[i]);
        let token = step.token;
        let next = place.moved(token);
        line = line_at(row, line, place);
        n = width_at(row, n, place, token, next.fault);
        place = next;
        mode = step.mode;
    }
    Scanned {
        place: place.moved(csv_bytes::ending(mode)),
        line: line_at(row, line, place),
        width: n,
    }
}

// How many rows a CSV has, or its first fault with the line and field.
pub fn last_place(csv: &[u8]) -> Place
    requires { length csv.now ≤ 200000 }
    ensures { numbered result ≡ last_place csv.now }
{
    let found = scan(csv, 0);
    found.place
}

// The line of a row.
pub fn line_of(csv: &[u8], row: usize) -> usize
    requires { length csv.now ≤ 200000 }
    ensures { result ≡ line_of row csv.now }
{
    let found = scan(csv, row);
    found.line
}

// How many fields a row has up to the last with bytes.
pub fn width(csv: &[u8], row: usize) -> usize
    requires { length csv.now ≤ 200000 }
    ensures value { result ≡ width row csv.now }
    ensures upper_bound { result ≤ 65 }
{
    let found = scan(csv, row);
    found.width
}
