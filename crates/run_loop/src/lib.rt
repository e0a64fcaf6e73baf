// The loop of a run: its steps, with the memory of products that they share.
//
// Helpers for other crates, whose callers prove what they require: add_shares, step, run_from.
#![tactic(auto)]

ghost use Rattle.std.specs.Prelude.{◌≡◌, ◌++◌, ◌+◌, ◌*◌, ◌≤◌, ◌<◌, length, get_or, set, drop, option_copied};
ghost use Rattle.method.specs.Problem.{allowed_steps};
ghost use Rattle.method.specs.Calls.{schedule_in, schedule_refusal};
ghost use Rattle.method.specs.Plain.{plain_problem};
ghost use Rattle.method.specs.Answers.{run_answer, run_iterate};
ghost use Rattle.files.specs.Book.{boats};
ghost use Rattle.files.specs.Sheet.{files_refusal};
ghost use Rattle.files.specs.Sheet as Sheets;
ghost use Rattle.iteration.specs.States.{file_layout, iterate_of, scores_of, Holds};
ghost use Rattle.run_loop.specs.Runs.{SharesAt, ScoresAt, Remembered, memory_of, slot_of, remembering, memory_after};

use iteration::{Layout, State};
use method::Answer;

// Gives a boat k shares more.
pub fn add_shares(shares: &mut [u16], boat: usize, k: u32)
    requires { (boat < length shares.old) × (get_or shares.old boat 0 + k < 65536) }
    ensures { shares.new ≡ set shares.old boat (get_or shares.old boat 0 + k) }
{
    shares[boat] += k as u16;
}

// The slot of the memory where a boat's products are, those with every row in `memory` and that with the target in `targets`. `tags` has
// for each boat its slot, counted from 1, and behind them how many are taken. A boat that has none takes the next one; the last of 64
// serves all boats that come when 63 are taken.
fn remember(
    boat: usize,
    book: &[u8],
    sheet: &[u8],
    layout: Layout,
    tags: &mut [u8],
    targets: &mut [i32],
    memory: &mut [i32],
) -> usize
    requires sheet_value { files_refusal book.now sheet.now ≡ 0 }
    requires layout_value { layout ≡ file_layout book.now sheet.now }
    requires boat_bound { boat < boats book.now }
    requires remembered { Remembered book.now sheet.now (memory_of tags.old targets.old memory.old) }
    ensures value { result ≡ slot_of boat (memory_of tags.old targets.old memory.old) }
    ensures memory_after { memory_of tags.new targets.new memory.new ≡ remembering book.now sheet.now boat (memory_of tags.old targets.old memory.old) }
{
    let tag = tags[boat];
    if tag != 0 {
        return (tag - 1) as usize;
    }
    let used = tags[256];
    let slot = used as usize;
    let at = slot * layout.boats;
    let target = iteration::products_of(boat, book, sheet, layout, &mut memory[at..]);
    targets[slot] = target;
    if used < 63 {
        tags[boat] = used + 1;
        tags[256] = used + 1;
    }
    slot
}

// One step: the boat picked gets its shares, the scores move by its products, and the boat of the step after it is picked.
pub fn step(
    state: State,
    book: &[u8],
    sheet: &[u8],
    table: Option<&[u16]>,
    layout: Layout,
    shares: &mut [u16],
    scores: &mut [i64],
    tags: &mut [u8],
    targets: &mut [i32],
    memory: &mut [i32],
) -> State
    requires sheet_value { files_refusal book.now sheet.now ≡ 0 }
    requires table_value { schedule_refusal (schedule_in (option_copied table)) ≡ 0 }
    requires layout_value { layout ≡ file_layout book.now sheet.now }
    requires holds { Holds (schedule_in (option_copied table)) book.now sheet.now state.steps state }
    requires steps_bound { state.steps < allowed_steps (schedule_in (option_copied table)) State.MOST_STEPS }
    requires shares_at { SharesAt (schedule_in (option_copied table)) book.now sheet.now state.steps shares.old }
    requires scores_at { ScoresAt (schedule_in (option_copied table)) book.now sheet.now state.steps scores.old }
    requires remembered { Remembered book.now sheet.now (memory_of tags.old targets.old memory.old) }
    ensures holds_2 { Holds (schedule_in (option_copied table.entry)) book.now sheet.now (state.steps + 1) result }
    ensures shares_after { shares.new ≡ (iterate_of (schedule_in (option_copied table.entry)) book.now sheet.now (state.steps + 1)).shares ++ drop (boats book.now) shares.old }
    ensures scores_after { scores.new ≡ scores_of (schedule_in (option_copied table.entry)) book.now sheet.now (state.steps + 1) ++ drop (boats book.now) scores.old }
    ensures memory_after { memory_of tags.new targets.new memory.new ≡ remembering book.now sheet.now state.best (memory_of tags.old targets.old memory.old) }
{
    let best = state.best;
    let k = schedules::share(table, state.steps);
    let boats = layout.boats;
    let slot = remember(best, book, sheet, layout, tags, targets, memory);
    let at = slot * boats;
    let score = scores[best];
    let own = memory[at + best];
    let target = targets[slot];
    add_shares(shares, best, k);
    let least = scoring::rescored(scores, k, &memory[at..], boats);
    let pick = scoring::picked(least, scores, shares, boats);
    state.next(k, score, own, target, pick)
}

// A run of so many steps from its fresh state, with the shares and scores of no step in the first slots; the memory has room for 64 boats' products.
// It leaves the shares of its last step, the scores after it, and the products of the boats that it picked.
pub fn run_from(
    start: State,
    steps: u32,
    book: &[u8],
    sheet: &[u8],
    table: Option<&[u16]>,
    layout: Layout,
    shares: &mut [u16],
    scores: &mut [i64],
    memory: &mut [i32],
) -> Answer
    requires sheet_value { files_refusal book.now sheet.now ≡ 0 }
    requires table_value { schedule_refusal (schedule_in (option_copied table)) ≡ 0 }
    requires layout_value { layout ≡ file_layout book.now sheet.now }
    requires steps_value { steps ≡ allowed_steps (schedule_in (option_copied table)) (Sheets.sheet sheet.now).steps }
    requires holds { Holds (schedule_in (option_copied table)) book.now sheet.now 0 start }
    requires shares_at { SharesAt (schedule_in (option_copied table)) book.now sheet.now 0 shares.old }
    requires scores_at { ScoresAt (schedule_in (option_copied table)) book.now sheet.now 0 scores.old }
    requires book_in_bounds { 64 * boats book.now ≤ length memory.old }
    ensures value { result ≡ run_answer (plain_problem (schedule_in (option_copied table.entry)) book.now sheet.now) }
    ensures shares_after { shares.new ≡ (run_iterate (plain_problem (schedule_in (option_copied table.entry)) book.now sheet.now)).shares ++ drop (boats book.now) shares.old }
    ensures scores_after { scores.new ≡ scores_of (schedule_in (option_copied table.entry)) book.now sheet.now (run_answer (plain_problem (schedule_in (option_copied table.entry)) book.now sheet.now)).steps ++ drop (boats book.now) scores.old }
    ensures memory_after { memory.new ≡ (memory_after (schedule_in (option_copied table.entry)) book.now sheet.now (run_answer (plain_problem (schedule_in (option_copied table.entry)) book.now sheet.now)).steps memory.old).products }
{
    let mut tags = [0u8; 257];
    let mut targets = [0i32; 64];
    let mut state = start;
    loop {
        state = step(
            state,
            book,
            sheet,
            table,
            layout,
            shares,
            scores,
            &mut tags,
            &mut targets,
            memory,
        );
        let answer = state.answer(sheet);
        let verdict = answer.verdict;
        if verdicts::stops(steps, state.steps, verdict) {
            return answer;
        }
    }
}
