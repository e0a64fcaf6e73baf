// The run of a fleet book and a sheet that counts every column once: its first step, and the memory that the others are lent.
//
// Helpers for other crates, whose callers prove what they require: clear, run.
#![tactic(auto)]

ghost use Rattle.std.specs.Prelude.{◌≡◌, ◌++◌, ◌*◌, ◌≤◌, length, drop, replicate, option_copied};
ghost use Rattle.method.specs.Problem.{allowed_steps};
ghost use Rattle.method.specs.Calls.{schedule_in, schedule_refusal};
ghost use Rattle.method.specs.Plain.{plain_problem};
ghost use Rattle.method.specs.Answers.{run_answer, run_iterate};
ghost use Rattle.files.specs.Book.{boats};
ghost use Rattle.files.specs.Sheet.{files_refusal};
ghost use Rattle.files.specs.Sheet as Sheets;
ghost use Rattle.iteration.specs.States.{file_layout, Holds};
ghost use Rattle.run_loop.specs.Runs.{SharesAt};

use iteration::{Layout, State};
use method::Answer;

// Sets the first `count` slots to 0.
pub fn clear(list: &mut [u16], count: usize)
    requires { count ≤ length list.old }
    ensures { list.new ≡ replicate count 0 ++ drop count list.old }
{
    list[..count].fill(0);
}

// A run from its fresh state, in memory for so many boats' scores and so many products. What a function has in memory it clears when it is
// called, so each size has a call of its own.
fn run_in<const SCORES: usize, const PRODUCTS: usize>(
    start: State,
    steps: u32,
    book: &[u8],
    sheet: &[u8],
    table: Option<&[u16]>,
    layout: Layout,
    shares: &mut [u16],
) -> Answer
    requires sheet_value { files_refusal book.now sheet.now ≡ 0 }
    requires table_value { schedule_refusal (schedule_in (option_copied table)) ≡ 0 }
    requires layout_value { layout ≡ file_layout book.now sheet.now }
    requires steps_value { steps ≡ allowed_steps (schedule_in (option_copied table)) (Sheets.sheet sheet.now).steps }
    requires holds { Holds (schedule_in (option_copied table)) book.now sheet.now 0 start }
    requires shares_at { SharesAt (schedule_in (option_copied table)) book.now sheet.now 0 shares.old }
    requires scores_room { (boats book.now ≤ SCORES) × (SCORES ≤ 256) }
    requires products_room { (64 * boats book.now ≤ PRODUCTS) × (PRODUCTS ≤ 16384) }
    ensures value { result ≡ run_answer (plain_problem (schedule_in (option_copied table.entry)) book.now sheet.now) }
    ensures shares_after { shares.new ≡ (run_iterate (plain_problem (schedule_in (option_copied table.entry)) book.now sheet.now)).shares ++ drop (boats book.now) shares.old }
{
    let mut scores = [0i64; SCORES];
    let mut memory = [0i32; PRODUCTS];
    run_loop::run_from(
        start,
        steps,
        book,
        sheet,
        table,
        layout,
        shares,
        &mut scores,
        &mut memory,
    )
}

// The run of files and shares that are not refused, with every factor 1: steps until one stops it. It leaves the shares in the first slots, one a boat.
// The first step is tried with no memory; how much the whole run is lent goes by the boats, so that a small run clears little.
pub fn run(book: &[u8], sheet: &[u8], table: Option<&[u16]>, shares: &mut [u16]) -> Answer
    requires sheet_value { files_refusal book.now sheet.now ≡ 0 }
    requires table_value { schedule_refusal (schedule_in (option_copied table)) ≡ 0 }
    requires book_in_bounds { boats book.now ≤ length shares.old }
    ensures value { result ≡ run_answer (plain_problem (schedule_in (option_copied table.entry)) book.now sheet.now) }
    ensures shares_after { shares.new ≡ (run_iterate (plain_problem (schedule_in (option_copied table.entry)) book.now sheet.now)).shares ++ drop (boats book.now) shares.old }
{
    let layout = iteration::layout_of(book, sheet);
    let boats = layout.boats;
    clear(shares, boats);
    let start = State::fresh(book, sheet, layout);
    let boat = start.best;
    let answer = iteration::first_answer(boat, book, sheet, table, layout);
    let verdict = answer.verdict;
    let steps = schedules::steps(table, files::steps(sheet));
    if verdicts::stops(steps, 1, verdict) {
        run_loop::add_shares(shares, boat, answer.weight);
        return answer;
    }
    if boats <= 16 {
        return run_in::<16, 1024>(start, steps, book, sheet, table, layout, shares);
    }
    if boats <= 64 {
        return run_in::<64, 4096>(start, steps, book, sheet, table, layout, shares);
    }
    run_in::<256, 16384>(start, steps, book, sheet, table, layout, shares)
}
