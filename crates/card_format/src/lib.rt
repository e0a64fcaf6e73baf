// The card's format: definitions, and what is proved of a card's bytes; what the card writer and the card check promise, with the type of
// what the writer gives back. It has no function: those are in crates `card` and `written_card`.
#![tactic(auto)]

use method::Answer;

// What the card writer gives back where it does not refuse: the run's answer, and how many bytes were written.
#[derive(Clone, Copy)]
pub struct FiledCard {
    pub answer: Answer,
    pub size: usize,
}
