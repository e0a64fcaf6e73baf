// One sheet of a queue: its first state, and a step of its run when its turn comes. The caller keeps the state, the shares and the scores.
// Where all factors are 1 the book and the sheet serve as they are; else a book and a sheet in which each column stands as often as its
// factor says are made in local memory, anew at each turn.
//
// Helpers for other crates, whose callers prove what they require: start, turn.
#![tactic(auto)]

ghost use Rattle.std.specs.Prelude.{◌≡◌, true, ◌++◌, ◌+◌, ◌<◌, length, drop};
ghost use Rattle.files.specs.Book.{boats};
ghost use Rattle.files.specs.Sheet.{WSH2, sheet_lettered, files_refusal};
ghost use Rattle.derived_files.specs.Accepted.{twin_book, twin_sheet};
ghost use Rattle.method.specs.Problem.{fixed, problem};
ghost use Rattle.method.specs.Iterates.{iterate};
ghost use Rattle.method.specs.Answers.{steps_used};
ghost use Rattle.sheet_queue.specs.Queue.{record_of};
ghost use Rattle.iteration.specs.States.{iterate_of, Holds};
ghost use Rattle.run_loop.specs.Runs.{SharesAt, ScoresAt};
ghost use Rattle.sheet_turn.specs.Turns.{plain_book, plain_sheet, TurnShares, TurnScores};

use iteration::State;
use sheet_queue::SheetRecord;

// The first state of files that are not refused, with every factor 1.
fn plain_start(book: &[u8], sheet: &[u8]) -> State
    requires { files_refusal book.now sheet.now ≡ 0 }
    ensures { Holds fixed book.now sheet.now 0 result }
{
    let layout = iteration::layout_of(book, sheet);
    State::fresh(book, sheet, layout)
}

// The same with the factors of a sheet of the edition WSH2, on derived files.
fn derived_start(book: &[u8], sheet: &[u8]) -> State
    requires sheet_value { files_refusal book.now sheet.now ≡ 0 }
    requires sheet_value_2 { sheet_lettered WSH2 sheet.now ≡ true }
    ensures { Holds fixed (twin_book book.now sheet.now) (twin_sheet sheet.now) 0 result }
{
    let factors = factors::factors_of(sheet);
    let mut own_book = [0u8; 32780];
    let n = derived_files::put_book(&mut own_book, book, factors);
    let mut own_sheet = [0u8; 144];
    let m = derived_files::put_sheet(&mut own_sheet, sheet, factors);
    plain_start(&own_book[..n], &own_sheet[..m])
}

// The first state of files that are not refused.
pub fn start(book: &[u8], sheet: &[u8]) -> State
    requires { files_refusal book.now sheet.now ≡ 0 }
    ensures { Holds fixed (plain_book book.now sheet.now) (plain_sheet sheet.now) 0 result }
{
    if factors::is_plain(sheet) {
        return plain_start(book, sheet);
    }
    derived_start(book, sheet)
}

// A step of files that are not refused, with every factor 1: the boat picked gets its shares, the scores move by its products, and the boat
// of the step after it is picked.
fn plain_turn(
    state: State,
    book: &[u8],
    sheet: &[u8],
    shares: &mut [u16],
    scores: &mut [i64],
) -> State
    requires sheet_value { files_refusal book.now sheet.now ≡ 0 }
    requires holds { Holds fixed book.now sheet.now state.steps state }
    requires steps_bound { state.steps < State.MOST_STEPS }
    requires shares_at { SharesAt fixed book.now sheet.now state.steps shares.old }
    requires scores_at { ScoresAt fixed book.now sheet.now state.steps scores.old }
    ensures holds_2 { Holds fixed book.now sheet.now (state.steps + 1) result }
    ensures shares_after { shares.new ≡ (iterate_of fixed book.now sheet.now (state.steps + 1)).shares ++ drop (boats book.now) shares.old }
    ensures scores_at_2 { ScoresAt fixed book.now sheet.now (state.steps + 1) scores.new }
{
    let layout = iteration::layout_of(book, sheet);
    let boats = layout.boats;
    let best = state.best;
    let k = state.steps + 1;
    let mut products = [0i32; 256];
    let target = iteration::products_of(best, book, sheet, layout, &mut products);
    let own = products[best];
    let score = scores[best];
    run_loop::add_shares(shares, best, k);
    let least = scoring::rescored(scores, k, &products, boats);
    let pick = scoring::picked(least, scores, shares, boats);
    state.next(k, score, own, target, pick)
}

// The same with the factors of a sheet of the edition WSH2, on derived files.
fn derived_turn(
    state: State,
    book: &[u8],
    sheet: &[u8],
    shares: &mut [u16],
    scores: &mut [i64],
) -> State
    requires sheet_value { files_refusal book.now sheet.now ≡ 0 }
    requires sheet_value_2 { sheet_lettered WSH2 sheet.now ≡ true }
    requires holds { Holds fixed (twin_book book.now sheet.now) (twin_sheet sheet.now) state.steps state }
    requires steps_bound { state.steps < State.MOST_STEPS }
    requires shares_at { SharesAt fixed (twin_book book.now sheet.now) (twin_sheet sheet.now) state.steps shares.old }
    requires scores_at { ScoresAt fixed (twin_book book.now sheet.now) (twin_sheet sheet.now) state.steps scores.old }
    ensures holds_2 { Holds fixed (twin_book book.now sheet.now) (twin_sheet sheet.now) (state.steps + 1) result }
    ensures shares_after { shares.new ≡ (iterate_of fixed (twin_book book.now sheet.now) (twin_sheet sheet.now) (state.steps + 1)).shares ++ drop (boats (twin_book book.now sheet.now)) shares.old }
    ensures scores_at_2 { ScoresAt fixed (twin_book book.now sheet.now) (twin_sheet sheet.now) (state.steps + 1) scores.new }
{
    let factors = factors::factors_of(sheet);
    let mut own_book = [0u8; 32780];
    let n = derived_files::put_book(&mut own_book, book, factors);
    let mut own_sheet = [0u8; 144];
    let m = derived_files::put_sheet(&mut own_sheet, sheet, factors);
    plain_turn(state, &own_book[..n], &own_sheet[..m], shares, scores)
}

// A step of files that are not refused. The first slots of the shares, one a boat, are those of the step after it; later ones are as they were.
fn stepped(state: State, book: &[u8], sheet: &[u8], shares: &mut [u16], scores: &mut [i64]) -> State
    requires sheet_value { files_refusal book.now sheet.now ≡ 0 }
    requires holds { Holds fixed (plain_book book.now sheet.now) (plain_sheet sheet.now) state.steps state }
    requires steps_bound { state.steps < State.MOST_STEPS }
    requires turn_shares { TurnShares book.now sheet.now state.steps shares.old }
    requires turn_scores { TurnScores book.now sheet.now state.steps scores.old }
    ensures holds_2 { Holds fixed (plain_book book.now sheet.now) (plain_sheet sheet.now) (state.steps + 1) result }
    ensures shares_after { shares.new ≡ (iterate (problem book.now sheet.now) (state.steps + 1)).shares ++ drop (boats book.now) shares.old }
    ensures turn_scores_2 { TurnScores book.now sheet.now (state.steps + 1) scores.new }
{
    if factors::is_plain(sheet) {
        return plain_turn(state, book, sheet, shares, scores);
    }
    derived_turn(state, book, sheet, shares, scores)
}

// What a turn leaves: the state after its step, and the sheet's record.
#[derive(Clone, Copy)]
pub struct Turned {
    pub state: State,
    pub record: SheetRecord,
}

// The turn of a sheet that is not finished: one step, and the record of the steps taken so far.
pub fn turn(
    state: State,
    book: &[u8],
    sheet: &[u8],
    shares: &mut [u16],
    scores: &mut [i64],
) -> Turned
    requires sheet_value { files_refusal book.now sheet.now ≡ 0 }
    requires holds { Holds fixed (plain_book book.now sheet.now) (plain_sheet sheet.now) state.steps state }
    requires steps_bound { state.steps < steps_used (problem book.now sheet.now) }
    requires turn_shares { TurnShares book.now sheet.now state.steps shares.old }
    requires turn_scores { TurnScores book.now sheet.now state.steps scores.old }
    ensures holds_2 { Holds fixed (plain_book book.now sheet.now) (plain_sheet sheet.now) (state.steps + 1) result.state }
    ensures record_value { result.record ≡ record_of (length sheet.now) (problem book.now sheet.now) (state.steps + 1) }
    ensures shares_after { shares.new ≡ (iterate (problem book.now sheet.now) (state.steps + 1)).shares ++ drop (boats book.now) shares.old }
    ensures turn_scores_2 { TurnScores book.now sheet.now (state.steps + 1) scores.new }
{
    let next = stepped(state, book, sheet, shares, scores);
    let answer = next.answer(sheet);
    let verdict = answer.verdict;
    let asked = files::steps(sheet);
    let used = next.steps;
    let record = SheetRecord {
        asked,
        used,
        finished: verdicts::stops(asked, used, verdict),
        distance: answer.distance,
        gap: answer.gap,
        verdict: verdicts::verdict_number(verdict),
        length: sheet.len() as u32,
    };
    Turned {
        state: next,
        record,
    }
}
