// Helpers of the test programs: bytes, numbers and trailers put into a buffer, and parts of one.
// Every function is safe on all arguments: what would fall outside a buffer is left out.
#![tactic(auto)]

ghost use Rattle.std.specs.Prelude.{◌≡◌, [], ◌∷◌, ◌*◌, ◌-◌, ◌%◌, ◌<◌, get_or};
ghost use Rattle.files.specs.Bytes.{number, number_bytes};
ghost use Rattle.test_buffers.specs.Buffers.{Puts, part, checksum, book_trailer, sheet_trailer};

// The letters that end a fleet book and a sheet, as numbers.
const WBK1: u64 = 827015767;

const WSH1: u64 = 826823511;

// Puts a byte at `at`, and gives back the offset after it.
pub fn put(buffer: &mut [u8], at: usize, x: u8) -> usize
    ensures { Puts buffer.old at (x ∷ []) buffer.new result }
{
    if at < buffer.len() {
        buffer[at] = x;
        return at + 1;
    }
    at
}

// The byte at `at`, 0 past the end.
pub fn byte_at(buffer: &[u8], at: usize) -> u8
    ensures { result ≡ get_or buffer.now at 0 }
{
    if at < buffer.len() { buffer[at] } else { 0 }
}

// The bytes from `start` to `end`, or all of them where there is no such part.
pub fn between(buffer: &[u8], start: usize, end: usize) -> &[u8]
    ensures { result.now ≡ part start end buffer.now }
{
    if end < start {
        return buffer;
    }
    if buffer.len() < end {
        return buffer;
    }
    &buffer[start..end]
}

// A number that depends on every byte and its place.
pub fn checksum(bytes: &[u8]) -> u64
    ensures { result ≡ checksum bytes.now }
{
    let mut sum = 0;
    for byte in bytes {
        sum = (257 * sum + wide(*byte)) % 1000003;
    }
    sum
}

// A byte in a wider type.
pub fn wide(x: u8) -> u64
    ensures value { result ≡ x }
    ensures upper_bound { result < 256 }
{
    x as u64
}

// The 2-byte number at `at`; bytes past the end count as 0.
pub fn u16_at(buffer: &[u8], at: usize) -> u64
    ensures value { result ≡ number at 2 buffer.now }
    ensures upper_bound { result < 65536 }
{
    if at < buffer.len() {
        return wide(buffer[at]) + 256 * wide(byte_at(buffer, at + 1));
    }
    0
}

// Puts a number of `count` bytes, the lowest first.
pub fn put_number(buffer: &mut [u8], at: usize, x: u64, count: u64) -> usize
    ensures { Puts buffer.old at (number_bytes count x) buffer.new result }
{
    let mut next = at;
    let mut rest = x;
    for i in 0..count {
        next = put(buffer, next, (rest % 256) as u8);
        rest /= 256;
    }
    next
}

// Puts these bytes.
pub fn put_bytes(buffer: &mut [u8], at: usize, bytes: &[u8]) -> usize
    ensures { Puts buffer.old at bytes.now buffer.new result }
{
    let mut next = at;
    for byte in bytes {
        next = put(buffer, next, *byte);
    }
    next
}

// Puts the trailer of a fleet book whose body has `back` bytes.
pub fn put_book_trailer(buffer: &mut [u8], at: usize, back: u64, boats: u64, columns: u64) -> usize
    ensures { Puts buffer.old at (book_trailer back boats columns) buffer.new result }
{
    let a = put_number(buffer, at, back, 4);
    let b = put_number(buffer, a, boats, 2);
    let c = put_number(buffer, b, columns, 2);
    put_number(buffer, c, WBK1, 4)
}

// Puts the trailer of a sheet.
pub fn put_sheet_trailer(
    buffer: &mut [u8],
    at: usize,
    columns: u64,
    steps: u64,
    tolerance: u64,
) -> usize
    ensures { Puts buffer.old at (sheet_trailer columns steps tolerance) buffer.new result }
{
    let a = put_number(buffer, at, 2 * (columns % 65536), 4);
    let b = put_number(buffer, a, columns, 2);
    let c = put_number(buffer, b, steps, 2);
    let d = put_number(buffer, c, tolerance, 4);
    put_number(buffer, d, WSH1, 4)
}

// The product of two numbers below 65,536.
pub fn times(a: u64, b: u64) -> u64
    ensures value { result ≡ (a % 65536) * (b % 65536) }
    ensures upper_bound { result < 4294967296 }
{
    (a % 65536) * (b % 65536)
}

// `a` less `b`, 0 where `b` is more.
pub fn less(a: usize, b: usize) -> usize
    ensures { result ≡ a - b }
{
    if b <= a { a - b } else { 0 }
}
