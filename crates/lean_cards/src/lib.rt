// The cards of a report, checked one by one into 256 slots a card.
//
// Entries, which ask nothing of their caller: lean_start, lean_card.
#![tactic(auto)]

ghost use Rattle.std.specs.Prelude.{◌≡◌, ◌++◌, ◌*◌, ◌-◌, ◌≤◌, length, take};
ghost use Rattle.refusals.specs.Numbers.{refusal_number};
ghost use Rattle.files.specs.Book.{boats};
ghost use Rattle.method.specs.Answers.{slots_after};
ghost use Rattle.card_format.specs.Format.{card_shares};
ghost use Rattle.card_format.specs.Checks.{check_refusal};
ghost use Rattle.leaning.specs.Report.{pair_of, start_refusal};
ghost use Rattle.leaning.specs.Slots.{card_slots, Starts, AddsPair};

use refusals::Refusal;

// ENTRY. What refuses a report of `cards` cards before any sheet or card is read: 1 to 6 of the book, then 58, a number of cards that is
// not 1 to 64. The second clause says that this is the refusal so far before the first card, in any list of 16,384 slots.
pub fn lean_start(book: &[u8], cards: usize) -> Result<(), Refusal>
    ensures value { refusal_number result ≡ start_refusal book.now cards }
    ensures starts { Starts book.now cards (refusal_number result) }
{
    validation::book_refusal(book)?;
    if cards < 1 {
        return Err(Refusal::ReportCards);
    }
    if leaning::MOST_CARDS < cards {
        return Err(Refusal::ReportCards);
    }
    Ok(())
}

// Where the slots of the card behind `before` others start, 256 a card: at the end of `len` slots where there are fewer.
fn slots_start(len: usize, before: usize) -> usize
    ensures { (result ≤ len) × (len - result ≡ len - card_slots * before) × (card_slots * before ≤ len → result ≡ card_slots * before) }
{
    if before <= len / 256 {
        return 256 * before;
    }
    len
}

// ENTRY. The card behind `before` others, checked with its sheet as `check_card` does: the reason that refuses it, or its shares in the
// first slots of its 256. All other slots are as they were. The third clause says that where the cards before it were checked one by
// one, none refused, it is checked as one of the report too: the refusal so far is that of all pairs (Checked).
pub fn lean_card(
    book: &[u8],
    sheet: &[u8],
    filed: &[u8],
    before: usize,
    slots: &mut [u16],
) -> Result<(), Refusal>
    ensures value { refusal_number result ≡ check_refusal book.now sheet.now filed.now (length slots.old - card_slots * before) }
    ensures slots_after { slots.new ≡ slots_after (refusal_number result) (take (card_slots * before) slots.old ++ card_shares (boats book.now) filed.now) slots.old }
    ensures adds_pair { AddsPair book.now (pair_of sheet.now filed.now) before slots.old (refusal_number result) slots.new }
{
    let start = slots_start(slots.len(), before);
    card::check_card(book, sheet, filed, &mut slots[start..])?;
    Ok(())
}
