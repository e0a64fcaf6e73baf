// The fields of some rows of a CSV, read in one pass and kept side by side: 200 bytes for each field, and how many of them it has.
//
// Helpers for other crates, whose callers prove what they require: put_rows, cell, width_in.
#![tactic(auto)]

ghost use Rattle.std.specs.Prelude.{List, ◌≡◌, ℕ, ◌+◌, ◌*◌, ◌≤◌, ◌<◌, length, get_or};
ghost use Rattle.csv_bytes.specs.Tokens.{token_number};
ghost use Rattle.csv_fleet_tokens.specs.Faults.{option_number};
ghost use Rattle.csv_cells.specs.Cells.{numbered, moved, width};
ghost use Rattle.csv_slots.specs.Slots.{slot, Room, Empty, Kept, Held};

use csv_bytes::{Mode, Token};
use csv_cells::Place;
use csv_fleet_tokens::Fault;

// Puts a token behind the bytes of its slot, where it is a byte of one of the rows; `fault` is that of the place after it.
fn keep(
    first: usize,
    rows: usize,
    place: Place,
    token: Token,
    fault: Option<Fault>,
    sizes: &mut [u8],
    cells: &mut [u8],
)
    requires fault_value { option_number fault ≡ (moved (numbered place) (token_number token)).fault }
    requires field_bound { place.field ≤ 64 }
    requires room { Room rows sizes.old cells.old }
    ensures { Kept first rows (numbered place) (token_number token) sizes.old cells.old sizes.new cells.new }
{
    let Token::Byte(b) = token else {
        return;
    };
    if fault.is_some() {
        return;
    }
    if place.row < first {
        return;
    }
    let after = place.row - first;
    if rows <= after {
        return;
    }
    let slot = 65 * after + place.field;
    let size = sizes[slot] as usize;
    if 200 <= size {
        return;
    }
    cells[200 * slot + size] = b;
    sizes[slot] = (size + 1) as u8;
}

// Puts each field of so many rows, from the row `first` on, into its slot.
pub fn put_rows(csv: &[u8], first: usize, rows: usize, sizes: &mut [u8], cells: &mut [u8])
    requires csv_len_bound { length csv.now ≤ 200000 }
    requires room { Room rows sizes.old cells.old }
    requires empty { Empty sizes.old }
    ensures { Held first rows csv.now sizes.new cells.new }
{
    let separator = csv_bytes::separator(csv);
    let mut place = Place::start();
    let mut mode = Mode::Start;
    for i in csv_bytes::mark_size(csv)..csv.len() {
        let step = csv_bytes::read_byte(separator, mode, csv[i]);
        let token = step.token;
        let next = place.moved(token);
        keep(first, rows, place, token, next.fault, sizes, cells);
        place = next;
        mode = step.mode;
    }
}

// The bytes in a slot.
pub fn cell<'a>(cells: &'a [u8], sizes: &[u8], number: usize) -> &'a [u8]
    requires number_in_bounds { number < length sizes.now }
    requires number_in_bounds_2 { 200 * number + get_or sizes.now number 0 ≤ length cells.now }
    ensures { result.now ≡ slot number sizes.now cells.now }
{
    let start = 200 * number;
    let end = start + sizes[number] as usize;
    &cells[start..end]
}

// How many fields the row has, so many rows after the first, up to the last with bytes.
pub fn width_in(sizes: &[u8], row: usize) -> usize
    requires row_bound { row ≤ 15 }
    requires row_in_bounds { 65 * row + 65 ≤ length sizes.now }
    ensures { (first rows : ℕ) (csv cells : List ℕ) → Held first rows csv sizes.now cells → row < rows → result ≡ width (first + row) csv }
{
    let start = 65 * row;
    for n in (1..=65).rev() {
        if sizes[start + (n - 1)] != 0 {
            return n;
        }
    }
    0
}
