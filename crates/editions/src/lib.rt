// A sheet in the other edition, WSH1 into WSH2 with every factor 1 and WSH2 into WSH1 where every factor is 1: what a conversion wrote,
// as a type. It has no function: specs/ defines the bytes, what refuses a conversion and what is promised of it; proofs/ proves the promise.

#![tactic(auto)]
// What a conversion wrote: the edition, 1 or 2, and how many bytes.
#[derive(Clone, Copy)]
pub struct Edition {
    pub number: u32,
    pub size: usize,
}
