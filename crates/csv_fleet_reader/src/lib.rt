// A fleet read from a whole CSV: its values are put into a buffer while it is read.
//
// Helpers for other crates, whose callers prove what they require: read_fleet, value_bits, next_number.
#![tactic(auto)]

ghost use Rattle.std.specs.Prelude.{◌≡◌, ◌+◌, ◌*◌, ◌≤◌, ◌<◌, length};
ghost use Rattle.buffers.specs.Placed.{placed};
ghost use Rattle.sheet_output.specs.Output.{bits, values_bytes};
ghost use Rattle.csv_bytes.specs.Tokens.{token_number};
ghost use Rattle.csv_bytes.specs.Cells.{signed};
ghost use Rattle.csv_fleet_tokens.specs.Faults.{option_number};
ghost use Rattle.csv_fleet_tokens.specs.Table.{numbered};
ghost use Rattle.csv_fleet_reader.specs.Fleet.{ends_value, ended_value, next_number, fleet_values, last_table, last_line};

use buffers::put;
use csv_bytes::{Mode, Token};
use csv_fleet_tokens::{Fault, Table};

// What was read of a whole CSV: the table after it, the line of the first fault, and how many values were put.
#[derive(Clone, Copy)]
pub struct Fleet {
    pub table: Table,
    pub line: usize,
    pub values: usize,
}

// The 16 bits of a value.
pub fn value_bits(negative: bool, magnitude: u32) -> u64
    requires { magnitude ≤ 2000 }
    ensures { result ≡ bits (signed negative magnitude) }
{
    if negative {
        return (65536 - magnitude as u64) % 65536;
    }
    magnitude as u64
}

// Whether a token ends a value in range.
#[tactic(auto, unfolding(crate::specs::Fleet::ends_value))]
fn ends_value(table: Table, token: Token) -> bool
    ensures { result ≡ ends_value (numbered table) (token_number token) }
{
    if table.fault.is_some() {
        return false;
    }
    match token {
        Token::Field | Token::Line | Token::End => (),
        _ => return false,
    }
    if table.columns == 0 {
        return false;
    }
    if table.units {
        return false;
    }
    if table.field == 0 {
        return false;
    }
    let cell = table.cell;
    csv_fleet_tokens::number_fault(cell).is_none()
}

// Puts the value that a token ends after `n` others, if it ends one; gives back how many there are then.
fn put_value(rows: &mut [u8], n: usize, table: Table, token: Token) -> usize
    requires { 32768 ≤ length rows.old }
    ensures value { result ≡ n + length (ended_value (numbered table) n (token_number token)) }
    ensures rows_after { rows.new ≡ placed rows.old (2 * n) (values_bytes (ended_value (numbered table) n (token_number token))) }
{
    if 16384 <= n {
        return n;
    }
    if ends_value(table, token) {
        let cell = table.cell;
        put(rows, 2 * n, 2, value_bits(cell.negative, cell.magnitude));
        return n + 1;
    }
    n
}

// The number of the line after a token; a fault keeps its line.
pub fn next_number(line: usize, fault: Option<Fault>, token: Token) -> usize
    requires { line < 9223372036854775808 }
    ensures value { result ≡ next_number line (option_number fault) (token_number token) }
    ensures upper_bound { result ≤ line + 1 }
{
    if fault.is_some() {
        return line;
    }
    match token {
        Token::Line => line + 1,
        _ => line,
    }
}

// Reads a fleet and puts its values, 2 bytes each, from the buffer's first byte on.
pub fn read_fleet(csv: &[u8], rows: &mut [u8]) -> Fleet
    requires csv_len_bound { length csv.now ≤ 200000 }
    requires in_bounds { 32768 ≤ length rows.old }
    ensures table_value { numbered result.table ≡ last_table csv.now }
    ensures line_value { result.line ≡ last_line csv.now }
    ensures values_value { result.values ≡ length (fleet_values csv.now) }
    ensures rows_after { rows.new ≡ placed rows.old 0 (values_bytes (fleet_values csv.now)) }
{
    let separator = csv_bytes::separator(csv);
    let mut table = Table::start();
    let mut mode = Mode::Start;
    let mut line = 1;
    let mut n = 0;
    for i in csv_bytes::mark_size(csv)..csv.len() {
        let step = csv_bytes::read_byte(separator, mode, csv[i]);
        let token = step.token;
        n = put_value(rows, n, table, token);
        table = table.after(token);
        line = next_number(line, table.fault, token);
        mode = step.mode;
    }
    let last = csv_bytes::ending(mode);
    n = put_value(rows, n, table, last);
    Fleet {
        table: table.after(last),
        line,
        values: n,
    }
}
