// One field of a fleet's CSV, as bytes: a boat's or a column's name, or what stands in place of a value.
//
// Helpers for other crates, whose callers prove what they require: put_field, put_byte.
#![tactic(auto)]

ghost use Rattle.std.specs.Prelude.{◌≡◌, ◌+◌, ◌≤◌, ◌<◌, length};
ghost use Rattle.csv_bytes.specs.Tokens.{token_number};
ghost use Rattle.csv_fleet_tokens.specs.Faults.{option_number};
ghost use Rattle.csv_fleet_tokens.specs.Table.{numbered, after};
ghost use Rattle.buffers.specs.Placed.{placed};
ghost use Rattle.csv_fields.specs.Fields.{bytes_of, byte_where, within_200, is_at, field_text};

use csv_bytes::{Mode, Token};
use csv_fleet_tokens::{Fault, Table};

// The byte that a token is, where it is one of a field: `line` and `field` say which, `at` is the token's line, and `fault` what the table has after it.
#[tactic(auto, unfolding(crate::specs::Fields::is_at))]
fn byte_at(
    line: usize,
    field: usize,
    at: usize,
    table: Table,
    token: Token,
    fault: Option<Fault>,
) -> Option<u8>
    requires { option_number fault ≡ (after (numbered table) (token_number token)).fault }
    ensures { bytes_of result ≡ byte_where (is_at line field at (numbered table) (token_number token)) (token_number token) }
{
    let Token::Byte(b) = token else {
        return None;
    };
    if fault.is_some() {
        return None;
    }
    if table.field != field {
        return None;
    }
    if line == 0 {
        return if table.columns == 0 { Some(b) } else { None };
    }
    if at == line { Some(b) } else { None }
}

// Puts a byte after `n` others where there is one; gives back how many there are then.
pub fn put_byte(output: &mut [u8], n: usize, byte: Option<u8>) -> usize
    requires { 200 ≤ length output.old }
    ensures value { result ≡ n + length (within_200 n (bytes_of byte)) }
    ensures output_after { output.new ≡ placed output.old n (within_200 n (bytes_of byte)) }
{
    if 200 <= n {
        return n;
    }
    match byte {
        Some(b) => {
            output[n] = b;
            n + 1
        }
        None => n,
    }
}

// Puts the bytes of a field from the first byte on, at most 200; gives back how many. Line 0 is the line of the column names.
pub fn put_field(csv: &[u8], line: usize, field: usize, output: &mut [u8]) -> usize
    requires csv_len_bound { length csv.now ≤ 200000 }
    requires in_bounds { 200 ≤ length output.old }
    ensures value { result ≡ length (field_text line field csv.now) }
    ensures output_after { output.new ≡ placed output.old 0 (field_text line field csv.now) }
{
    let separator = csv_bytes::separator(csv);
    let mut table = Table::start();
    let mut mode = Mode::Start;
    let mut at = 1;
    let mut n = 0;
    for i in csv_bytes::mark_size(csv)..csv.len() {
        let step = csv_bytes::read_byte(separator, mode, csv[i]);
        let token = step.token;
        let next = table.after(token);
        let byte = byte_at(line, field, at, table, token, next.fault);
        n = put_byte(output, n, byte);
        at = csv_fleet_reader::next_number(at, next.fault, token);
        table = next;
        mode = step.mode;
    }
    n
}
