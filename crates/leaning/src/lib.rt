// Which boats some cards rest on: the limits that the code and the definitions share. The refusals, the counts and the lines are defined
// in specs/Report.antt, how cards that are checked one by one stand in a list of slots in specs/Slots.antt, what is promised in
// specs/Promise.antt.

#![tactic(auto)]
// The most cards of a report.
pub const MOST_CARDS: usize = 64;

// The slots of all cards, 256 a card.
pub const MOST_SLOTS: usize = 16384;

// How many cards make a stretch.
pub const STRETCH: usize = 12;
