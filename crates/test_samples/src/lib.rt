// Drawn files of the test programs: a generator of numbers, and fleet books and sheets built from it in a buffer.
// Every function is safe on all arguments: what would fall outside a buffer is left out.
// tests/generator.py does the same in Python, draw for draw.
#![tactic(auto)]

ghost use Rattle.std.specs.Prelude.{◌≡◌, length};
ghost use Rattle.test_buffers.specs.Buffers.{Puts};
ghost use Rattle.test_samples.specs.Draws.{advance, advances, drawn, any_bytes};
ghost use Rattle.test_samples.specs.Rows.{row, again, next_row, after_row, rows, after_rows, middle};
ghost use Rattle.test_samples.specs.Files.{small_plan, rows_start, book, after_book, row_offset, target, after_target, sheet, after_sheet, changed_place, changed_number, changed_bytes, damaged_part, damaged};

use test_buffers::{less, put, put_number, times};

// The next state of the generator, a linear congruential one.
fn advance(seed: u64) -> u64
    ensures { result ≡ advance seed }
{
    seed % 2147483647 * 48271 % 2147483647
}

// A number below `n`, 0 where `n` is 0. The generator moves on.
pub fn draw(seed: &mut u64, n: u64) -> u64
    ensures value { result ≡ drawn n seed.old }
    ensures seed_after { seed.new ≡ advance seed.old }
{
    *seed = advance(*seed);
    if n == 0 {
        return 0;
    }
    *seed % n
}

// Puts `count` bytes of any kind.
pub fn put_front(buffer: &mut [u8], at: usize, seed: &mut u64, count: u64) -> usize
    ensures puts { Puts buffer.old at (any_bytes count seed.old) buffer.new result }
    ensures seed_after { seed.new ≡ advances count seed.old }
{
    let mut next = at;
    for i in 0..count {
        let x = draw(seed, 256);
        next = put(buffer, next, x as u8);
    }
    next
}

// Puts `columns` values from -`scale` to `scale`.
pub fn put_row(buffer: &mut [u8], at: usize, seed: &mut u64, columns: u64, scale: u64) -> usize
    ensures puts { Puts buffer.old at (row columns scale seed.old) buffer.new result }
    ensures seed_after { seed.new ≡ advances columns seed.old }
{
    let mut next = at;
    for i in 0..columns {
        let x = draw(seed, 2 * (scale % 65536) + 1);
        next = put_number(buffer, next, x % 65536 + 65536 - scale % 65536, 2);
    }
    next
}

// Puts once more the `count` bytes that stand before `at`.
pub fn put_again(buffer: &mut [u8], at: usize, count: usize) -> usize
    ensures { Puts buffer.old at (again count count buffer.old at) buffer.new result }
{
    let mut next = at;
    for i in 0..count {
        let x = test_buffers::byte_at(buffer, less(next, count));
        next = put(buffer, next, x);
    }
    next
}

// Puts row `i`: the row before it once more where `kind` is 0, else a drawn one.
fn put_next_row(
    buffer: &mut [u8],
    at: usize,
    seed: &mut u64,
    i: u64,
    kind: u64,
    columns: u64,
    scale: u64,
) -> usize
    ensures puts { Puts buffer.old at (next_row i kind columns scale buffer.old at seed.old) buffer.new result }
    ensures seed_after { seed.new ≡ after_row i kind columns seed.old }
{
    if kind == 0 {
        if i != 0 {
            return put_again(buffer, at, 2 * (columns % 65536) as usize);
        }
    }
    put_row(buffer, at, seed, columns, scale)
}

// Puts the rows of `boats` boats, about one in four of them equal to the row before it.
pub fn put_rows(
    buffer: &mut [u8],
    at: usize,
    seed: &mut u64,
    boats: u64,
    columns: u64,
    scale: u64,
) -> usize
    ensures puts { Puts buffer.old at (rows boats 0 columns scale buffer.old at seed.old) buffer.new result }
    ensures seed_after { seed.new ≡ after_rows boats 0 columns seed.old }
{
    let mut next = at;
    for i in 0..boats {
        let kind = draw(seed, 4);
        next = put_next_row(buffer, next, seed, i, kind, columns, scale);
    }
    next
}

// Puts the values half way between those of `from` that start at `a` and at `b`, rounded down.
pub fn put_middle(
    buffer: &mut [u8],
    at: usize,
    from: &[u8],
    a: usize,
    b: usize,
    columns: u64,
) -> usize
    ensures { Puts buffer.old at (middle columns 0 from.now a b) buffer.new result }
{
    let mut next = at;
    for i in 0..columns {
        let j = 2 * (i % 65536) as usize;
        let x = (test_buffers::u16_at(from, a % 65536 + j) + 2000) % 65536;
        let y = (test_buffers::u16_at(from, b % 65536 + j) + 2000) % 65536;
        next = put_number(buffer, next, (x + y) / 2 + 63536, 2);
    }
    next
}

// The sizes of a drawn case: values go from -`scale` to `scale`, and `front` bytes stand before each body.
#[derive(Clone, Copy)]
pub struct Plan {
    pub boats: u64,
    pub columns: u64,
    pub scale: u64,
    pub steps: u64,
    pub front: u64,
}

const SCALES: [u64; 5] = [1, 2, 10, 200, 2000];

// Sizes of a small case: 1 to 8 boats, 1 to 5 columns, 1 to 12 steps.
pub fn draw_plan(seed: &mut u64) -> Plan
    ensures value { result ≡ small_plan seed.old }
    ensures seed_after { seed.new ≡ advances 5 seed.old }
{
    let boats = draw(seed, 8) + 1;
    let columns = draw(seed, 5) + 1;
    let kind = draw(seed, 5) as usize;
    let scale = SCALES[kind];
    let steps = draw(seed, 12) + 1;
    let front = draw(seed, 4);
    Plan {
        boats,
        columns,
        scale,
        steps,
        front,
    }
}

// Where a book's rows start, and where the book ends.
#[derive(Clone, Copy)]
pub struct Placed {
    pub rows: usize,
    pub end: usize,
}

// Puts a fleet book of drawn rows.
pub fn put_book(buffer: &mut [u8], seed: &mut u64, plan: Plan) -> Placed
    ensures puts { Puts buffer.old 0 (book buffer.old plan seed.old) buffer.new result.end }
    ensures rows_value { result.rows ≡ rows_start (length buffer.old) plan seed.old }
    ensures seed_after { seed.new ≡ after_book plan seed.old }
{
    let boats = plan.boats;
    let columns = plan.columns;
    let rows = put_front(buffer, 0, seed, plan.front);
    let at = put_rows(buffer, rows, seed, boats, columns, plan.scale);
    let back = 2 * times(boats, columns);
    let end = test_buffers::put_book_trailer(buffer, at, back, boats, columns);
    Placed { rows, end }
}

// The offset of a drawn boat's row.
fn draw_row(seed: &mut u64, plan: Plan, rows: usize) -> usize
    ensures value { result ≡ row_offset rows plan seed.old }
    ensures seed_after { seed.new ≡ advance seed.old }
{
    let boat = draw(seed, plan.boats);
    rows % 65536 + (2 * times(boat, plan.columns)) as usize
}

// Puts a target: a drawn one, one boat's row, half way between two boats, or one that may lie far outside.
fn put_target(
    buffer: &mut [u8],
    at: usize,
    seed: &mut u64,
    plan: Plan,
    book: &[u8],
    rows: usize,
) -> usize
    ensures puts { Puts buffer.old at (target book.now rows plan seed.old) buffer.new result }
    ensures seed_after { seed.new ≡ after_target plan seed.old }
{
    let columns = plan.columns;
    let kind = draw(seed, 4);
    let a = draw_row(seed, plan, rows);
    let b = draw_row(seed, plan, rows);
    if kind == 0 {
        return put_row(buffer, at, seed, columns, plan.scale);
    }
    if kind == 3 {
        return put_row(buffer, at, seed, columns, 2000);
    }
    let other = if kind == 1 { a } else { b };
    put_middle(buffer, at, book, a, other, columns)
}

// Puts a sheet for a book whose rows start at `rows`, and gives back where it ends.
pub fn put_sheet(
    buffer: &mut [u8],
    seed: &mut u64,
    plan: Plan,
    book: &[u8],
    rows: usize,
    tolerance: u64,
) -> usize
    ensures puts { Puts buffer.old 0 (sheet book.now rows tolerance plan seed.old) buffer.new result }
    ensures seed_after { seed.new ≡ after_sheet plan seed.old }
{
    let at = put_front(buffer, 0, seed, plan.front);
    let end = put_target(buffer, at, seed, plan, book, rows);
    test_buffers::put_sheet_trailer(buffer, end, plan.columns, plan.steps, tolerance)
}

// Numbers at and beside the limits of the files' fields.
const SPECIAL: [u64; 12] = [0, 1, 2, 3, 5, 8, 10, 64, 65, 256, 360, 361];

// The bits of the values at and just past the limits.
const LIMITS: [u64; 4] = [2000, 2001, 63536, 63535];

// A part of a buffer.
#[derive(Clone, Copy)]
pub struct Part {
    pub start: usize,
    pub end: usize,
}

// Where a change goes: near the end of a file that ends at `end`, or anywhere.
fn changed_place(end: usize, place: usize, near: usize, kind: u64) -> usize
    ensures { result ≡ changed_place end place near kind }
{
    if kind == 1 {
        return less(end, near % 16 + 1);
    }
    if kind == 2 {
        return less(end, 2 * (near % 16) + 4);
    }
    place
}

// The number that a change puts there.
fn changed_number(kind: u64, x: u64) -> u64
    ensures { result ≡ changed_number kind x }
{
    let i = (x % 12) as usize;
    let j = (x % 4) as usize;
    if kind == 2 {
        return SPECIAL[i];
    }
    if kind == 3 {
        return LIMITS[j];
    }
    x
}

// Changes a byte or a number of a file that ends at `end`.
fn change(buffer: &mut [u8], end: usize, place: usize, near: usize, kind: u64, x: u64) -> usize
    ensures { Puts buffer.old (changed_place end place near kind) (changed_bytes kind x) buffer.new result }
{
    let size = if kind < 2 { 1 } else { 2 };
    let at = changed_place(end, place, near, kind);
    put_number(buffer, at, changed_number(kind, x), size)
}

// Damages a file that ends at `end`: a byte anywhere, a byte or a number of the trailer, a value, or a cut at either side.
pub fn damage(buffer: &mut [u8], end: usize, seed: &mut u64) -> Part
    ensures value { result ≡ damaged_part end seed.old }
    ensures buffer_after { buffer.new ≡ damaged buffer.old end seed.old }
    ensures seed_after { seed.new ≡ advances 4 seed.old }
{
    let kind = draw(seed, 6);
    let place = draw(seed, end as u64) as usize;
    let near = draw(seed, 16) as usize;
    let x = draw(seed, 65536);
    if kind == 4 {
        return Part {
            start: 0,
            end: place,
        };
    }
    if kind == 5 {
        return Part { start: place, end };
    }
    change(buffer, end, place, near, kind, x);
    Part { start: 0, end }
}
