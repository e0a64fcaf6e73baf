// The lines that say which boats cards rest on, of the shares in 256 slots a card.
//
// Entry, which asks nothing of its caller: lean_text.
#![tactic(auto)]

ghost use Rattle.std.specs.Prelude.{◌≡◌, cond, ℕ, ◌+◌, ◌*◌, ◌≤◌, ◌<◌, eqb, length, drop};
ghost use Rattle.frank_wolfe.specs.Vectors.{sum};
ghost use Rattle.files.specs.Book.{boats};
ghost use Rattle.text.specs.Texts.{Holds, Adds};
ghost use Rattle.listing.specs.Lines.{boat_lines};
ghost use Rattle.leaning.specs.Report.{stretch_cards, stretches, cards_on, counts, most_used, stretch_lines, lean_lines};
ghost use Rattle.leaning.specs.Slots.{card_slots, parts, slots_refusal, slots_listing};
ghost use Rattle.leaning.specs.Promise.{ReportsChecked};

use text::Text;

// 1 for shares above zero, else 0.
fn holds(share: u16) -> usize
    ensures value { result ≡ cond (eqb share 0) 0 1 }
    ensures upper_bound { result ≤ 1 }
{
    if share == 0 {
        return 0;
    }
    1
}

// How many of `cards` cards rest on a boat; the first card's slots start at `start`.
fn cards_on(slots: &[u16], start: usize, cards: usize, boat: usize) -> usize
    requires { (boat < card_slots) × (cards ≤ 64) × (start + card_slots * cards ≤ length slots.now) }
    ensures by_index { (n : ℕ) → boat < n → result ≡ cards_on boat (parts cards n (drop start slots.now)) }
    ensures upper_bound { result ≤ cards }
{
    let mut count = 0;
    for k in 0..cards {
        count += holds(slots[start + 256 * k + boat]);
    }
    count
}

// The boat that most cards of the stretch rest on whose first card's slots start at `start`, the lowest-numbered of several.
fn most_used(slots: &[u16], start: usize, boats: usize) -> usize
    requires { (1 ≤ boats) × (boats ≤ card_slots) × (start + card_slots * stretch_cards ≤ length slots.now) }
    ensures value { result ≡ most_used boats (parts stretch_cards boats (drop start slots.now)) }
    ensures upper_bound { result < 256 }
{
    let mut best = 0;
    let mut greatest = 0;
    for i in 0..boats {
        let count = cards_on(slots, start, leaning::STRETCH, i);
        if greatest < count {
            best = i;
            greatest = count;
        }
    }
    best
}

// The counts of all boats, added up.
fn total(slots: &[u16], cards: usize, boats: usize) -> usize
    requires { (cards ≤ 64) × (boats ≤ card_slots) × (card_slots * cards ≤ length slots.now) }
    ensures { result ≡ sum (counts boats (parts cards boats slots.now)) }
{
    let mut sum = 0;
    for i in 0..boats {
        sum += cards_on(slots, 0, cards, i);
    }
    sum
}

// The text followed by the lines of the boats that cards rest on.
fn with_boats(text: Text, slots: &[u16], cards: usize, boats: usize) -> Text
    requires { (cards ≤ 64) × (boats ≤ card_slots) × (card_slots * cards ≤ length slots.now) × (text.len ≡ 0) }
    ensures adds { Adds text (boat_lines 0 (counts boats (parts cards boats slots.now))) result }
    ensures len_bound { result.len ≤ 3072 }
{
    let mut longer = text;
    for i in 0..boats {
        longer = listing::with_boat(longer, i, cards_on(slots, 0, cards, i) as u16);
    }
    longer
}

// The text followed by the line of each stretch of 12 cards.
fn with_stretches(text: Text, slots: &[u16], cards: usize, boats: usize) -> Text
    requires { (cards ≤ 64) × (1 ≤ boats) × (boats ≤ card_slots) × (card_slots * cards ≤ length slots.now) × (text.len ≤ 3099) }
    ensures { Adds text (stretch_lines boats (parts cards boats slots.now) (stretches cards) 0) result }
{
    let mut longer = text;
    for i in 0..(cards + 1).saturating_sub(leaning::STRETCH) {
        let boat = most_used(slots, 256 * i, boats);
        longer = longer.with_pair(b"stretch ", (i + 1) as u64, boat as u64);
    }
    longer
}

// The lines of an accepted book's boats and 1 to 64 cards with 256 slots each.
fn lines(slots: &[u16], cards: usize, boats: usize) -> Text
    requires { (cards ≤ 64) × (1 ≤ boats) × (boats ≤ card_slots) × (card_slots * cards ≤ length slots.now) }
    ensures { Holds (lean_lines boats (sum (counts boats (parts cards boats slots.now))) (parts cards boats slots.now)) result }
{
    let begun = with_boats(Text::empty(), slots, cards, boats);
    let totalled = begun.with_line(b"total ", total(slots, cards, boats) as u64);
    with_stretches(totalled, slots, cards, boats)
}

// The number that refuses the lines of `cards` cards in so many slots, after `refusal`.
fn slots_refusal(book: &[u8], refusal: u32, cards: usize, slots: usize) -> u32
    ensures { result ≡ slots_refusal book.now refusal cards slots }
{
    if refusal != 0 {
        return refusal;
    }
    if let Err(start) = lean_cards::lean_start(book, cards) {
        return start.number();
    }
    if slots < 256 * cards {
        return 21;
    }
    0
}

// ENTRY. The report of the cards whose shares are in the slots: its lines, or the number that refuses. `refusal` is what refused a card before,
// 0 where none was refused. The second clause says that of cards that were checked one by one the text is the report of all pairs, and what
// holds of its counts and stretches (Reports).
pub fn lean_text(book: &[u8], refusal: u32, cards: usize, slots: &[u16]) -> Text
    ensures holds { Holds (slots_listing book.now refusal cards slots.now) result }
    ensures reports_checked { ReportsChecked book.now refusal cards slots.now result }
{
    let number = slots_refusal(book, refusal, cards, slots.len());
    if number != 0 {
        return Text::empty().with_line(b"refused ", number as u64);
    }
    lines(slots, cards, files::boats(book))
}
