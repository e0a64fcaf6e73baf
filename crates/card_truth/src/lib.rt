// Whether what a card says is true of the shares in its body: refusals 37 to 39.
//
// Helper for other crates, whose callers prove what it requires: judged.
#![tactic(auto)]

ghost use Rattle.std.specs.Prelude.{◌≡◌, ◌≤◌, length, take, option_copied};
ghost use Rattle.files.specs.Book.{boats};
ghost use Rattle.files.specs.Sheet.{files_refusal};
ghost use Rattle.files.specs.Sheet as Sheets;
ghost use Rattle.method.specs.Searched.{searched};
ghost use Rattle.method.specs.Problem.{allowed_steps, call_problem};
ghost use Rattle.method.specs.Calls.{schedule_in, schedule_refusal, terms};
ghost use Rattle.method.specs.Answers.{outcome};
ghost use Rattle.method.specs.Bounds.{answer_of};
ghost use Rattle.iteration.specs.States.{file_layout};
ghost use Rattle.card_format.specs.Format.{card_fields, card_test, pair_count};
ghost use Rattle.card_format.specs.Checks.{shares_total, numbers_agree, truth_refusal};
ghost use Rattle.card_truth.specs.Readable.{CardReadable};

use iteration::{Layout, State};
use method::Answer;
use refusals::Refusal;

// Whether a card's boats that hold shares are no more than its steps used, and the shares total what so many steps give.
fn shares_total(table: Option<&[u16]>, card: &[u8], shares: [u16; 256], boats: usize) -> bool
    requires in_bounds { (36 ≤ length card.now) × (boats ≤ 256) }
    requires card_bound { (card_fields card.now).steps ≤ allowed_steps (schedule_in (option_copied table)) State.MOST_STEPS }
    ensures { result ≡ shares_total (schedule_in (option_copied table.entry)) (pair_count card.now) (take boats shares) (card_fields card.now).steps }
{
    let t = card_input::steps_used(card);
    if (t as usize) < card_input::pair_count(card) {
        return false;
    }
    card_pairs::total(shares, boats) == schedules::total(table, t)
}

// Whether a card's E, G and verdict are an answer's, and the verdict ends a run of so many steps.
fn numbers_agree(card: &[u8], steps: u32, a: Answer) -> bool
    requires { 36 ≤ length card.now }
    ensures { result ≡ numbers_agree steps card.now a }
{
    let verdict = a.verdict;
    if files::u64_at(card, card.len() - 24) != a.distance {
        return false;
    }
    if files::u64_at(card, card.len() - 16) != a.gap {
        return false;
    }
    if files::u16_at(card, card.len() - 32) != verdicts::verdict_number(verdict) {
        return false;
    }
    verdicts::stops(steps, card_input::steps_used(card), verdict)
}

// What a card says judged by the first shares, one a boat, and the test of its letters: its answer, or the first reason, 37 to 39, that
// refuses it.
pub fn judged(
    book: &[u8],
    sheet: &[u8],
    table: Option<&[u16]>,
    layout: Layout,
    card: &[u8],
    shares: [u16; 256],
) -> Result<Answer, Refusal>
    requires sheet_value { files_refusal book.now sheet.now ≡ 0 }
    requires table_value { schedule_refusal (schedule_in (option_copied table)) ≡ 0 }
    requires layout_value { layout ≡ file_layout book.now sheet.now }
    requires card_readable { CardReadable (allowed_steps (schedule_in (option_copied table)) (Sheets.sheet sheet.now).steps) card.now }
    ensures { searched result ≡ outcome (truth_refusal (call_problem (terms (option_copied table.entry)) book.now sheet.now) (take (boats book.now) shares) card.now) (answer_of (card_test card.now) (call_problem (terms (option_copied table.entry)) book.now sheet.now) (take (boats book.now) shares) (card_fields card.now).steps) }
{
    if !shares_total(table, card, shares, layout.boats) {
        return Err(Refusal::CardShares);
    }
    let answer = factored_run::answer_of(
        card_input::test_of(card),
        book,
        sheet,
        table,
        shares,
        card_input::steps_used(card),
    );
    let steps = schedules::steps(table, files::steps(sheet));
    if !numbers_agree(card, steps, answer) {
        return Err(Refusal::CardDistance);
    }
    if files::u32_at(card, card.len() - 28) != files::tolerance(sheet) {
        return Err(Refusal::CardTolerance);
    }
    Ok(answer)
}
