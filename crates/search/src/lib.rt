// The mixture search.
//
// Entries, which ask nothing of their caller: search_with, search.
#![tactic(auto)]

ghost use Rattle.std.specs.Prelude.{◌≡◌, false, length, None, option_copied};
ghost use Rattle.method.specs.Searched.{searched};
ghost use Rattle.method.specs.Problem.{plain_terms, call_problem, problem};
ghost use Rattle.method.specs.Calls.{terms_in};
ghost use Rattle.method.specs.Answers.{outcome, search_refusal_with, search_refusal, run_slots, slots_after, run_answer, run_iterate};
ghost use Rattle.method.specs.Promise.{OutcomeRightWith, OutcomeRight};

use method::{Answer, Released};
use refusals::Refusal;

// ENTRY. The search with what a caller may hand in beside the files: a set of released boats, which is read only where it says that the
// call is limited to it, and a table of shares that is lent, or none. Refuses a lent table (49 to 51), then as the
// search of the files alone does, with 52 of a set after 6, and leaves the list as it was; else gives the answer of the run of the
// problem that they set, and fills the list's first slots with the shares, one a boat of the book and 0 for a boat that may not be used.
// The first two clauses give the outcome and every slot; the third says what holds of them, by the numbers of the book too, that the
// rows of other boats change nothing (isolated), and that a set of all boats changes nothing. With nothing handed in the terms are those
// of `search`.
pub fn search_with(
    book: &[u8],
    sheet: &[u8],
    released: Released,
    table: Option<&[u16]>,
    shares: &mut [u16],
) -> Result<Answer, Refusal>
    ensures value { searched result ≡ outcome (search_refusal_with (terms_in released (option_copied table.entry)) book.now sheet.now (length shares.old)) (run_answer (call_problem (terms_in released (option_copied table.entry)) book.now sheet.now)) }
    ensures shares_after { shares.new ≡ slots_after (search_refusal_with (terms_in released (option_copied table.entry)) book.now sheet.now (length shares.old)) (run_slots (terms_in released (option_copied table.entry)) book.now sheet.now) shares.old }
    ensures outcome_right_with { OutcomeRightWith (terms_in released (option_copied table.entry)) book.now sheet.now (searched result) shares.new }
    ensures table_value { released.limited ≡ false → option_copied table.entry ≡ None → terms_in released (option_copied table.entry) ≡ plain_terms }
{
    calls::call_refusal(book, sheet, released, table)?;
    if shares.len() < files::boats(book) {
        return Err(Refusal::ShareSlots);
    }
    Ok(released_run::run(book, sheet, released, table, shares))
}

// ENTRY. The search: refuses files and a share list that do not serve (1 to 17, 46, then 21) and leaves the list as it was;
// else gives the answer of the run of the problem that the files make, and fills the list's first slots with the shares, one a
// boat. The first two clauses give the outcome and every slot; the third says what holds of them: the bounds against every
// mixture (RunBounds), and that after each step they are those of the published method (PublishedRun).
pub fn search(book: &[u8], sheet: &[u8], shares: &mut [u16]) -> Result<Answer, Refusal>
    ensures value { searched result ≡ outcome (search_refusal book.now sheet.now (length shares.old)) (run_answer (problem book.now sheet.now)) }
    ensures shares_after { shares.new ≡ slots_after (search_refusal book.now sheet.now (length shares.old)) (run_iterate (problem book.now sheet.now)).shares shares.old }
    ensures outcome_right { OutcomeRight book.now sheet.now (searched result) shares.new }
{
    let every_boat = Released {
        limited: false,
        boats: [0u8; 32],
    };
    search_with(book, sheet, every_boat, None, shares)
}
