// A fleet given as CSV: a line of column names, a line of units or none, a line a boat. Its values, or the first fault with its place.
//
// Helpers for other crates that ask nothing of their caller: Table::start, read_fleet. Table::after has a requirement, which its callers prove.
#![tactic(auto)]

ghost use Rattle.std.specs.Prelude.{◌≡◌, ◌+◌, ◌<◌};
ghost use Rattle.csv_fleet_tokens.specs.Faults.{fault_number, option_number};
ghost use Rattle.csv_bytes.specs.Tokens.{token_number};
ghost use Rattle.csv_fleet_tokens.specs.Table.{numbered, start, faulty, with_text, number_fault, name_fault, field_fault, limit, units_after, field_ended, end_fault, columns_after, boats_after, word_after, whole_line_ended, line_ended, finished, consumed, after};

use csv_bytes::{Cell, Token};

// What is wrong with a CSV, each with the number that the definitions give it.
#[derive(Clone, Copy, Debug, PartialEq, Eq)]
pub enum Fault {
    // a field of more than 200 bytes
    Long = 1,
    // a boat, a hull or a column without a name
    Nameless = 2,
    // no column
    Columnless = 3,
    // more columns, or fields in a line, than there may be
    Many = 4,
    // a column without a value
    NoValue = 5,
    // a value that is no whole number
    NotWhole = 6,
    OutOfRange = 7,
    // more than 256 boats
    Boats = 8,
    // no boat
    Boatless = 9,
    // a CSV with too many bytes
    Big = 10,
    // a buffer that is too short
    Room = 11,
    // a fleet's CSV with a fault
    Fleet = 12,
    // more than 16 rows in a sheet's CSV
    Rows = 13,
    // a second row of a kind
    Again = 14,
    // no row of this kind
    NoHull = 15,
    NoSteps = 16,
    NoTolerance = 17,
    // a column of the fleet that the sheet has not, that it has twice; one of the sheet that the fleet has not; one that the fleet has twice
    Missing = 18,
    Twice = 19,
    Unknown = 20,
    FleetTwice = 21,
    // factors that do not total 1 to 64
    FactorTotal = 22,
    // a tolerance above 1,024,000,000
    LargeTolerance = 23,
    // more values than the row has numbers
    ManyValues = 24,
    // text behind a closing quote
    Stray = 260,
    // a quote that is not closed
    Open = 261,
}

impl Fault {
    // The number of a fault.
    pub fn number(self) -> u32
        ensures { result ≡ fault_number self }
    {
        self as u32
    }
}

// What was read so far: how many fields this line has before this one, the columns and boats, whether this line has units, this field's
// bytes, how many of them begin the word `unit` where it may stand, and the first fault.
#[derive(Clone, Copy)]
pub struct Table {
    pub field: usize,
    pub columns: usize,
    pub boats: usize,
    pub units: bool,
    pub cell: Cell,
    pub word: usize,
    pub fault: Option<Fault>,
}

// What is wrong with a field as a value.
#[tactic(auto, unfolding(crate::specs::Table::number_fault))]
pub fn number_fault(cell: Cell) -> Option<Fault>
    ensures { option_number result ≡ number_fault cell }
{
    if cell.is_number() {
        if 2000 < cell.magnitude {
            return Some(Fault::OutOfRange);
        }
        return None;
    }
    Some(Fault::NotWhole)
}

#[tactic(auto, unfolding(crate::specs::Table::name_fault))]
fn name_fault(cell: Cell) -> Option<Fault>
    ensures { option_number result ≡ name_fault cell }
{
    if cell.size == 0 {
        return Some(Fault::Nameless);
    }
    None
}

// How many fields a line may have after its first.
#[tactic(auto, unfolding(crate::specs::Table::limit))]
fn limit(columns: usize) -> usize
    ensures { result ≡ limit columns }
{
    if columns == 0 {
        return 64;
    }
    columns
}

// How many bytes of the next line's first field begin `unit`: none yet, or 5 where it may have no units.
#[tactic(auto, unfolding(crate::specs::Table::word_after))]
fn word_after(columns: usize) -> usize
    ensures { result ≡ word_after columns }
{
    if columns == 0 {
        return 0;
    }
    5
}

// A byte of a CSV takes a table to the next. What it passes through is inlined, so that a reader's loop has the table in registers.
impl Table {
    // Nothing was read.
    pub fn start() -> Table
        ensures { numbered result ≡ start }
    {
        Table {
            field: 0,
            columns: 0,
            boats: 0,
            units: false,
            cell: Cell::empty(),
            word: 5,
            fault: None,
        }
    }

    fn faulty(mut self, fault: Fault) -> Table
        ensures { numbered result ≡ faulty (numbered self) (fault_number fault) }
    {
        self.fault = Some(fault);
        self
    }

    // One byte more of a field.
    #[tactic(auto, unfolding(crate::specs::Table::with_text))]
    fn with_text(self, b: u8) -> Table
        ensures { numbered result ≡ with_text (numbered self) b }
    {
        let cell = self.cell;
        if cell.size < 200 {
            return Table {
                field: self.field,
                columns: self.columns,
                boats: self.boats,
                units: self.units,
                cell: cell.with_byte(b),
                word: csv_bytes::progress(b"unit", self.word, b),
                fault: self.fault,
            };
        }
        self.faulty(Fault::Long)
    }

    // What is wrong with a field at its end.
    #[tactic(auto, unfolding(crate::specs::Table::field_fault))]
    fn field_fault(self) -> Option<Fault>
        ensures { option_number result ≡ field_fault (numbered self) }
    {
        let cell = self.cell;
        if self.columns == 0 {
            return name_fault(cell);
        }
        if self.units {
            return None;
        }
        if self.field == 0 {
            if self.boats < 256 {
                return name_fault(cell);
            }
            return Some(Fault::Boats);
        }
        number_fault(cell)
    }

    // Whether a line has units, once its first field has ended.
    #[tactic(auto, unfolding(crate::specs::Table::units_after))]
    fn units_after(self) -> bool
        ensures { result ≡ units_after (numbered self) }
    {
        if self.field == 0 {
            return self.word == 4;
        }
        self.units
    }

    #[tactic(auto, unfolding(crate::specs::Table::field_ended, crate::specs::Table::next_field))]
    fn field_ended(self) -> Table
        ensures { numbered result ≡ field_ended (numbered self) }
    {
        if self.field < limit(self.columns) {
            return match self.field_fault() {
                None => Table {
                    field: self.field + 1,
                    columns: self.columns,
                    boats: self.boats,
                    units: self.units_after(),
                    cell: Cell::empty(),
                    word: 0,
                    fault: None,
                },
                Some(fault) => self.faulty(fault),
            };
        }
        self.faulty(Fault::Many)
    }

    // What is wrong with a line at its end.
    #[tactic(auto, unfolding(crate::specs::Table::end_fault))]
    fn end_fault(self) -> Option<Fault>
        ensures { option_number result ≡ end_fault (numbered self) }
    {
        if self.columns == 0 {
            if self.field == 0 {
                return Some(Fault::Columnless);
            }
            return None;
        }
        if self.field == self.columns {
            return None;
        }
        Some(Fault::NoValue)
    }

    #[tactic(auto, unfolding(crate::specs::Table::columns_after))]
    fn columns_after(self) -> usize
        ensures { result ≡ columns_after (numbered self) }
    {
        if self.columns == 0 {
            return self.field;
        }
        self.columns
    }

    #[tactic(auto, unfolding(crate::specs::Table::boats_after))]
    fn boats_after(self) -> usize
        requires { self.boats < 4294967296 }
        ensures { result ≡ boats_after (numbered self) }
    {
        if self.columns == 0 {
            return self.boats;
        }
        if self.units {
            return self.boats;
        }
        self.boats + 1
    }

    #[tactic(auto, unfolding(crate::specs::Table::whole_line_ended, crate::specs::Table::next_line))]
    #[inline(always)]
    fn whole_line_ended(self) -> Table
        requires { self.boats < 4294967296 }
        ensures { numbered result ≡ whole_line_ended (numbered self) }
    {
        match self.field_fault() {
            Some(fault) => self.faulty(fault),
            None => match self.end_fault() {
                Some(fault) => self.faulty(fault),
                None => Table {
                    field: 0,
                    columns: self.columns_after(),
                    boats: self.boats_after(),
                    units: false,
                    cell: Cell::empty(),
                    word: word_after(self.columns),
                    fault: None,
                },
            },
        }
    }

    // A line without bytes is passed over.
    #[tactic(auto, unfolding(crate::specs::Table::line_ended))]
    #[inline(always)]
    fn line_ended(self) -> Table
        requires { self.boats < 4294967296 }
        ensures { numbered result ≡ line_ended (numbered self) }
    {
        let cell = self.cell;
        if self.field != 0 {
            return self.whole_line_ended();
        }
        if cell.size != 0 {
            return self.whole_line_ended();
        }
        self
    }

    #[tactic(auto, unfolding(crate::specs::Table::finished))]
    fn finished(self) -> Table
        ensures { numbered result ≡ finished (numbered self) }
    {
        if self.fault.is_some() {
            return self;
        }
        if self.boats != 0 {
            return self;
        }
        self.faulty(Fault::Boatless)
    }

    #[tactic(auto, unfolding(crate::specs::Table::consumed))]
    #[inline(always)]
    fn consumed(self, token: Token) -> Table
        requires { self.boats < 4294967296 }
        ensures { numbered result ≡ consumed (numbered self) (token_number token) }
    {
        match token {
            Token::Byte(b) => self.with_text(b),
            Token::Field => self.field_ended(),
            Token::Line => self.line_ended(),
            Token::End => self.line_ended().finished(),
            Token::Nothing => self,
            Token::Stray => self.faulty(Fault::Stray),
            Token::Open => self.faulty(Fault::Open),
        }
    }

    // What was read with one token more.
    #[tactic(auto, unfolding(crate::specs::Table::after))]
    #[inline(always)]
    pub fn after(self, token: Token) -> Table
        requires { self.boats < 4294967296 }
        ensures { numbered result ≡ after (numbered self) (token_number token) }
    {
        match self.fault {
            Some(_) => self,
            None => self.consumed(token),
        }
    }
}
