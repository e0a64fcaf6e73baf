// The better of two cards of one fleet book and sheet: what is chosen, as a type.
// It has no function: specs/ defines what refuses the two cards, which is chosen and what is promised of it; proofs/ proves the promise.

#![tactic(auto)]
// A part of one of two cards: `len` bytes from `offset` of the first or the second. A refusal names an empty part of the first.
#[repr(C)]
#[derive(Clone, Copy)]
pub struct Choice {
    // the number that refuses the files or a card, 0 where none does
    pub refusal: u32,
    // 1 for the first card, 2 for the second
    pub card: u32,
    // where the card's body starts, behind its front text
    pub offset: usize,
    // the bytes of body and trailer
    pub len: usize,
}
