// The Frank-Wolfe method in whole numbers: the answer of a run as a type.
// It has no function: specs/ defines the method, the published iteration over fractions and what is promised of a run; proofs/ proves the promises of the definitions.

#![tactic(auto)]
// What a run says of the target: within the tolerance; beyond it, with the floor E - 2 G; or neither after the
// last step, with the shortfall E - tolerance × W².
#[derive(Clone, Copy)]
pub enum Verdict {
    Within,
    Beyond(i64),
    Spent(u64),
}

// What says Beyond. Former: E - 2 G is above tolerance × W². Sharper: E is above G, and (E - G)² above tolerance × W² × E.
#[derive(Clone, Copy)]
pub enum Test {
    Former,
    Sharper,
}

// The answer of a run: steps used, W, E, G and the verdict.
#[derive(Clone, Copy)]
pub struct Answer {
    pub steps: u32,
    pub weight: u32,
    pub distance: u64,
    pub gap: u64,
    pub verdict: Verdict,
}

// The boats that a call may use, by the numbers of the book. Where `limited`, those that the bits of `boats` name: bit b of byte k,
// b = 0 the lowest, is for boat 8 k + b. Else all of them, and `boats` is not read.
#[repr(C)]
#[derive(Clone, Copy)]
pub struct Released {
    pub limited: bool,
    pub boats: [u8; 32],
}
