// A queue of sheets that share one allowance of steps: a record of the queue. The rounds, the records and the refusals are defined in
// specs/, and what is promised of them in specs/Promise.antt. It has no function.

#![tactic(auto)]
// The most sheets of a queue.
pub const MOST_SHEETS: usize = 16;

// How many slots of the share list each sheet has.
pub const SLOTS: usize = 256;

// The most steps that an allowance may have: 16 sheets of 360 steps.
pub const MOST_STEPS: u32 = 5760;

// What the queue says of one sheet. The caller gives its length; the rest is written.
#[repr(C)]
#[derive(Clone, Copy)]
pub struct SheetRecord {
    // the steps that the sheet asks for
    pub asked: u32,
    // the steps that it took
    pub used: u32,
    // whether it has a verdict of its own, and not that of an allowance that was gone
    pub finished: bool,
    // E
    pub distance: u64,
    // G
    pub gap: u64,
    // 1 Within, 2 Beyond, 3 Spent
    pub verdict: u32,
    // how many bytes the sheet has
    pub length: u32,
}
