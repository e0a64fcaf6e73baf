// The card check.
//
// Entries, which ask nothing of their caller: check_card_with, check_card.
// Helpers for other crates, whose callers prove what they require: judge_card_with, judge_card.
#![tactic(auto)]

ghost use Rattle.std.specs.Prelude.{◌≡◌, false, ◌++◌, ◌≤◌, length, take, drop, None, option_copied};
ghost use Rattle.files.specs.Book.{boats};
ghost use Rattle.files.specs.Sheet.{files_refusal};
ghost use Rattle.method.specs.Searched.{searched};
ghost use Rattle.method.specs.Problem.{plain_terms};
ghost use Rattle.method.specs.Calls.{terms_in, call_refusal};
ghost use Rattle.method.specs.Answers.{outcome, slots_after};
ghost use Rattle.card_format.specs.Format.{card_shares, card_answer_with, card_answer};
ghost use Rattle.card_format.specs.Checks.{check_refusal_with, check_refusal};
ghost use Rattle.card_format.specs.Checking.{CheckRightWith, CheckRight};

use method::{Answer, Released};
use refusals::Refusal;

// The first `count` slots of `to` as those of `from`; later slots as they were.
fn fill(from: [u16; 256], count: usize, to: &mut [u16])
    requires { (count ≤ 256) × (count ≤ length to.old) }
    ensures { to.new ≡ take count from ++ drop count to.old }
{
    to[..count].copy_from_slice(&from[..count]);
}

// The card check of files and terms that were accepted, which are not judged again: as `check_card_with` says.
pub fn judge_card_with(
    book: &[u8],
    sheet: &[u8],
    released: Released,
    table: Option<&[u16]>,
    card: &[u8],
    shares: &mut [u16],
) -> Result<Answer, Refusal>
    requires { call_refusal (terms_in released (option_copied table)) book.now sheet.now ≡ 0 }
    ensures value { searched result ≡ outcome (check_refusal_with (terms_in released (option_copied table.entry)) book.now sheet.now card.now (length shares.old)) (card_answer_with (terms_in released (option_copied table.entry)) book.now sheet.now card.now) }
    ensures shares_after { shares.new ≡ slots_after (check_refusal_with (terms_in released (option_copied table.entry)) book.now sheet.now card.now (length shares.old)) (card_shares (boats book.now) card.now) shares.old }
{
    let layout = iteration::layout_of(book, sheet);
    let boats = layout.boats;
    if shares.len() < boats {
        return Err(Refusal::ShareSlots);
    }
    let steps = schedules::steps(table, files::steps(sheet));
    card_input::form_refusal(card, boats, layout.columns, steps)?;
    let count = card_input::pair_count(card);
    let found = card_pairs::shares_of(card, card.len() - 36 - 4 * count, count);
    if !released_card::rests(found, released, boats) {
        return Err(Refusal::CardBoats);
    }
    let answer = released_card::judged(book, sheet, released, table, card, found)?;
    fill(found, boats, shares);
    Ok(answer)
}

// The same of the files alone.
pub fn judge_card(
    book: &[u8],
    sheet: &[u8],
    card: &[u8],
    shares: &mut [u16],
) -> Result<Answer, Refusal>
    requires { files_refusal book.now sheet.now ≡ 0 }
    ensures value { searched result ≡ outcome (check_refusal book.now sheet.now card.now (length shares.old)) (card_answer book.now sheet.now card.now) }
    ensures shares_after { shares.new ≡ slots_after (check_refusal book.now sheet.now card.now (length shares.old)) (card_shares (boats book.now) card.now) shares.old }
{
    let every_boat = Released {
        limited: false,
        boats: [0u8; 32],
    };
    judge_card_with(book, sheet, every_boat, None, card, shares)
}

// ENTRY. The card check with what a caller may hand in beside the files: a set of released boats, which is read only where it says that
// the call is limited to it, and a table of shares that is lent, or none. Refuses a lent table (49 to 51), then as the
// check with the files alone does, with 52 of a set after 6 and by 36 also a card that rests on a boat that may not be used, and leaves
// the list as it was; else gives the card's answer and its shares. An accepted card vouches for what it says under these terms, whichever
// made it. The rows of other boats change nothing (isolated). With nothing handed in the terms are those of `check_card`.
pub fn check_card_with(
    book: &[u8],
    sheet: &[u8],
    released: Released,
    table: Option<&[u16]>,
    card: &[u8],
    shares: &mut [u16],
) -> Result<Answer, Refusal>
    ensures value { searched result ≡ outcome (check_refusal_with (terms_in released (option_copied table.entry)) book.now sheet.now card.now (length shares.old)) (card_answer_with (terms_in released (option_copied table.entry)) book.now sheet.now card.now) }
    ensures shares_after { shares.new ≡ slots_after (check_refusal_with (terms_in released (option_copied table.entry)) book.now sheet.now card.now (length shares.old)) (card_shares (boats book.now) card.now) shares.old }
    ensures check_right_with { CheckRightWith (terms_in released (option_copied table.entry)) book.now sheet.now card.now (searched result) shares.new }
    ensures table_value { released.limited ≡ false → option_copied table.entry ≡ None → terms_in released (option_copied table.entry) ≡ plain_terms }
{
    calls::call_refusal(book, sheet, released, table)?;
    judge_card_with(book, sheet, released, table, card, shares)
}

// ENTRY. The card check: refuses files, a share list or a card that does not serve (1 to 17, 46, 21, then 31 to 39) and leaves the
// list as it was; else gives the card's answer and fills the list's first slots with its shares, one a boat. It does not rerun
// the search. The third clause says that a card is accepted exactly when it is true, and what it vouches for (CheckRight).
pub fn check_card(
    book: &[u8],
    sheet: &[u8],
    card: &[u8],
    shares: &mut [u16],
) -> Result<Answer, Refusal>
    ensures value { searched result ≡ outcome (check_refusal book.now sheet.now card.now (length shares.old)) (card_answer book.now sheet.now card.now) }
    ensures shares_after { shares.new ≡ slots_after (check_refusal book.now sheet.now card.now (length shares.old)) (card_shares (boats book.now) card.now) shares.old }
    ensures check_right { CheckRight book.now sheet.now card.now (searched result) shares.new }
{
    let every_boat = Released {
        limited: false,
        boats: [0u8; 32],
    };
    check_card_with(book, sheet, every_boat, None, card, shares)
}
