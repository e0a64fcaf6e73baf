// A card with each of its bits flipped.
ghost use Rattle.std.specs.Prelude.{◌≡◌};

use test_buffers::between;

// The bits of a byte.
const BITS: [u8; 8] = [1, 2, 4, 8, 16, 32, 64, 128];

// Checks the card in a buffer's first `len` bytes with one byte changed, and puts the byte back.
fn flip(
    rt: &HostRuntime,
    book: &[u8],
    sheet: &[u8],
    filed: &mut [u8],
    len: usize,
    at: usize,
    mask: u8,
)
    ensures { filed.new ≡ filed.old }
{
    if at < filed.len() {
        let x = filed[at];
        filed[at] = x ^ mask;
        let mut slots = [7u16; 4];
        let found = card::check_card(book, sheet, between(filed, 0, len), &mut slots);
        test_printing::number(rt, test_printing::refusal_number(found));
        filed[at] = x;
    }
}

// The 8 bits of one byte, a line.
fn flip_byte(rt: &HostRuntime, book: &[u8], sheet: &[u8], filed: &mut [u8], len: usize, at: usize)
    ensures { filed.new ≡ filed.old }
{
    test_printing::word(rt, b"flip");
    for i in 0..8 {
        flip(rt, book, sheet, filed, len, at, BITS[i]);
    }
    test_printing::word(rt, b"\n");
}

// Every byte of the card.
pub fn flips(rt: &HostRuntime, book: &[u8], sheet: &[u8], filed: &mut [u8], len: usize)
    ensures { filed.new ≡ filed.old }
{
    for at in 0..len {
        flip_byte(rt, book, sheet, filed, len, at);
    }
}
