// Drawn tables of shares. tests/generator.py does the same in Python, draw for draw.
use test_buffers::{less, times};
use test_samples::draw;

// Numbers of shares at the limits.
const LENGTHS: [usize; 5] = [360, 359, 361, 0, 1];

// The shares from the first on, so many of them, or all where there are fewer.
pub fn first(table: &[u16], count: usize) -> &[u16] {
    if table.len() < count {
        return table;
    }
    let start = 0;
    &table[start..count]
}

// Puts a share where the table has room for it.
fn put_share(table: &mut [u16], i: usize, x: u64) {
    if i < table.len() {
        table[i] = (x % 65536) as u16;
    }
}

// The greatest share that may follow a running total, where `past` is that of the total before: one more where it may be.
fn border(past: u64, total: u64) -> u64 {
    let more = past % 1000 + 1;
    if times(more, more) <= 2 * (total % 4294967296 + more) {
        more
    } else {
        past
    }
}

// Share i: 1, counted, rising to 4 and falling, the greatest that may stand there, counted from 2, or a drawn one.
fn share(kind: u64, i: usize, most: u64, x: u64) -> u64 {
    let counted = (i % 65536) as u64 + 1;
    if kind == 0 {
        return 1;
    }
    if kind == 1 {
        return counted;
    }
    if kind == 2 {
        let falling = less(7, i) as u64;
        return if i < 4 {
            counted
        } else if falling == 0 {
            1
        } else {
            falling
        };
    }
    if kind == 3 {
        return most;
    }
    if kind == 7 {
        return if i == 0 { 2 } else { counted };
    }
    if most == 0 { 1 } else { x % most % 65536 + 1 }
}

// Share i, which at the chosen place is, of two kinds, one that is too great or 0.
fn share_at(kind: u64, i: usize, place: usize, most: u64, x: u64) -> u64 {
    if i == place {
        if kind == 5 {
            return most % 1000 + 1;
        }
        if kind == 6 {
            return 0;
        }
    }
    share(kind, i, most, x)
}

// Puts so many shares; the one at `place` may be faulty.
pub fn put_shares(table: &mut [u16], seed: &mut u64, kind: u64, count: usize, place: usize) {
    let mut most = 2;
    let mut total = 0;
    for i in 0..count {
        let x = draw(seed, 360);
        let next = share_at(kind, i, place, most, x);
        put_share(table, i, next);
        total = total % 4294967296 + next % 65536;
        most = border(most, total);
    }
}

// Puts a drawn table, and gives back its number of shares. The first of `choices` numbers are at the limits.
pub fn put_table(table: &mut [u16], seed: &mut u64, choices: u64) -> usize {
    let kind = draw(seed, 8);
    let choice = draw(seed, choices);
    let short = (draw(seed, 14) % 14) as usize + 1;
    let place = draw(seed, short as u64) as usize;
    let count = if choice < 5 {
        LENGTHS[choice as usize]
    } else {
        short
    };
    put_shares(table, seed, kind, count, place);
    count
}
