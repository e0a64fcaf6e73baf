// One fleet book from two: what the call gives back. The rows, the bytes and the refusals are defined in specs/Merging.antt, what is
// promised in specs/Promise.antt.

#![tactic(auto)]
// The most bytes of a fleet book without front text: 256 rows of 64 values, 2 bytes each, and the trailer.
pub const MOST_BYTES: usize = 32780;

// The number that refuses the books or the buffer, 0 where a book was written, and how many bytes it has, 0 on a refusal.
#[repr(C)]
#[derive(Clone, Copy)]
pub struct Merged {
    pub refusal: u32,
    pub len: usize,
}
