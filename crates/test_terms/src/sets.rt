// Drawn released sets, and books with other rows for the boats that are not released. tests/generator.py does the same in Python, draw for draw.
use method::Released;
use test_buffers::less;
use test_samples::{Plan, draw};

// The byte with a bit set.
fn with_bit(byte: u64, bit: usize) -> u64 {
    byte | 1 << (bit % 8) as u64
}

// How many contents byte k has in a set of a book's boats.
fn inside(boats: usize, k: usize) -> u64 {
    let bits = less(boats, 8 * (k % 32));
    if bits < 8 { 1 << bits as u64 } else { 256 }
}

// Byte k of a set without the chosen boat: all boats, drawn ones or none.
fn drawn_byte(kind: u64, inside: u64, x: u64) -> u64 {
    if kind == 1 {
        return less(inside as usize, 1) as u64;
    }
    if kind < 3 {
        return 0;
    }
    if kind == 6 {
        return 0;
    }
    if inside == 0 { 0 } else { x % inside }
}

// Whether the chosen boat is put into a set of this kind.
fn chooses(kind: u64) -> bool {
    match kind {
        0 | 2 | 4 | 5 => true,
        _ => false,
    }
}

// Byte k of a set.
fn set_byte(kind: u64, boats: usize, chosen: usize, k: usize, x: u64) -> u64 {
    let byte = drawn_byte(kind, inside(boats, k), x);
    if chooses(kind) {
        if chosen / 8 == k {
            return with_bit(byte, chosen % 8);
        }
    }
    byte
}

// The boat of a set that is chosen: the last, one that the book does not have, or the drawn one.
fn chosen_boat(kind: u64, boats: usize, x: usize) -> usize {
    if kind == 2 {
        return less(boats, 1);
    }
    if kind == 5 {
        return boats % 65536 + x % 8;
    }
    x
}

// A drawn set: one boat, all, the last, drawn ones, drawn ones with one of the book or with one that it does not have, or none.
pub fn draw_set(seed: &mut u64, boats: usize) -> Released {
    let mut bits = [0u8; 32];
    let kind = draw(seed, 8);
    let chosen = chosen_boat(kind, boats, draw(seed, boats as u64) as usize);
    for k in 0..32 {
        let x = draw(seed, 256);
        bits[k] = (set_byte(kind, boats, chosen, k, x) % 256) as u8;
    }
    Released {
        limited: true,
        boats: bits,
    }
}

// Whether a set has a boat.
fn has(set: Released, boat: usize) -> bool {
    let bits = set.boats;
    (bits[boat / 8 % 32] >> (boat % 8) as u8) % 2 == 1
}

// Another row for a boat of a book, unless a set has it; the book's rows start at `rows`.
fn put_other(book: &mut [u8], seed: &mut u64, plan: Plan, rows: usize, set: Released, boat: usize) {
    if has(set, boat) {
        return;
    }
    let columns = plan.columns;
    let at = rows % 65536 + (2 * test_buffers::times(boat as u64, columns)) as usize;
    test_samples::put_row(book, at, seed, columns, plan.scale);
}

// Other rows for all boats of a book that a set does not have.
pub fn put_others(book: &mut [u8], seed: &mut u64, plan: Plan, rows: usize, set: Released) {
    let boats = (plan.boats % 65536) as usize;
    for i in 0..boats {
        put_other(book, seed, plan, rows, set, i);
    }
}
