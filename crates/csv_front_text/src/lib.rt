// A file with front text that is made of a CSV: the CSV itself, or the CSV without its values, or nothing.
//
// Helper for other crates, whose callers prove what it requires: put_with_front.
#![tactic(auto)]

ghost use Rattle.std.specs.Prelude.{◌≡◌, ◌+◌, ◌-◌, ◌≤◌, length, take};
ghost use Rattle.buffers.specs.Placed.{placed};
ghost use Rattle.csv_bytes.specs.Tokens.{token_number};
ghost use Rattle.csv_fleet_tokens.specs.Table.{numbered};
ghost use Rattle.csv_front_text.specs.Front.{is_kept, kept_byte, names_text, front_of, front_text, with_front, written_of};
ghost use Rattle.files.specs.Limits.{file_limit};

use buffers::put_bytes;
use csv_bytes::{Mode, Token};
use csv_fleet_tokens::Table;

// What of a CSV is the front text: all of it, the names and units, nothing.
#[derive(Clone, Copy)]
pub enum Front {
    Whole,
    Names,
    Nothing,
}

// What was put into a buffer: which front text, and how many bytes with the file.
#[derive(Clone, Copy)]
pub struct Written {
    pub front: Front,
    pub len: usize,
}

// Whether a byte is no part of a value, nor a separator before one.
#[tactic(auto, unfolding(crate::specs::Front::is_kept))]
fn is_kept(table: Table, token: Token) -> bool
    ensures { result ≡ is_kept (numbered table) (token_number token) }
{
    if table.columns == 0 {
        return true;
    }
    if table.units {
        return true;
    }
    if table.field == 0 {
        return true;
    }
    token == Token::Line
}

// Puts a byte after `n` others where it is kept and there is room for it; gives back how many are kept then.
fn put_kept(output: &mut [u8], n: usize, table: Table, token: Token, b: u8) -> usize
    requires { n ≤ 200000 }
    ensures value { result ≡ n + length (kept_byte (numbered table) (token_number token) b) }
    ensures output_after { output.new ≡ placed output.old n (take (length output.old - n) (kept_byte (numbered table) (token_number token) b)) }
{
    if is_kept(table, token) {
        if n < output.len() {
            output[n] = b;
            return n + 1;
        }
        return n + 1;
    }
    n
}

// Puts a CSV without its values, from the first byte on, as far as there is room; gives back how many bytes it has.
fn put_names(csv: &[u8], output: &mut [u8]) -> usize
    requires { length csv.now ≤ 200000 }
    ensures value { result ≡ length (names_text csv.now) }
    ensures output_after { output.new ≡ placed output.old 0 (take (length output.old) (names_text csv.now)) }
{
    let separator = csv_bytes::separator(csv);
    let mut table = Table::start();
    let mut mode = Mode::Start;
    let mut n = 0;
    for i in csv_bytes::mark_size(csv)..csv.len() {
        let b = csv[i];
        let step = csv_bytes::read_byte(separator, mode, b);
        let token = step.token;
        n = put_kept(output, n, table, token, b);
        table = table.after(token);
        mode = step.mode;
    }
    n
}

// How many bytes a CSV has without its values: they are put where there is no room.
fn names_size(csv: &[u8]) -> usize
    requires { length csv.now ≤ 200000 }
    ensures { result ≡ length (names_text csv.now) }
{
    let mut nowhere = [0u8; 0];
    put_names(csv, &mut nowhere)
}

// Which front text there is room for.
#[tactic(auto, unfolding(crate::specs::Front::front_of))]
fn front_of(csv: &[u8], room: usize) -> Front
    requires { length csv.now ≤ 200000 }
    ensures { result ≡ front_of room csv.now }
{
    if csv.len() <= room {
        return Front::Whole;
    }
    if names_size(csv) <= room {
        return Front::Names;
    }
    Front::Nothing
}

// Puts the front text, from the first byte on; gives back how many bytes it has.
fn put_front(csv: &[u8], output: &mut [u8], front: Front) -> usize
    requires csv_len_bound { length csv.now ≤ 200000 }
    requires csv_in_bounds { length (front_text front csv.now) ≤ length output.old }
    ensures value { result ≡ length (front_text front csv.now) }
    ensures output_after { output.new ≡ placed output.old 0 (front_text front csv.now) }
{
    match front {
        Front::Whole => {
            put_bytes(output, 0, csv);
            csv.len()
        }
        Front::Names => put_names(csv, output),
        Front::Nothing => 0,
    }
}

// Puts a file with the front text that there is room for, from the first byte on.
pub fn put_with_front(csv: &[u8], output: &mut [u8], file: &[u8]) -> Written
    requires csv_len_bound { length csv.now ≤ 200000 }
    requires file_len_bound { length file.now ≤ file_limit }
    requires file_limit_in_bounds { file_limit ≤ length output.old }
    ensures value { result ≡ written_of csv.now file.now }
    ensures output_after { output.new ≡ placed output.old 0 (with_front csv.now file.now) }
{
    let front = front_of(csv, 40000 - file.len());
    let at = put_front(csv, output, front);
    put_bytes(output, at, file);
    Written {
        front,
        len: at + file.len(),
    }
}
