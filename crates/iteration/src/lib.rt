// The iteration of the mixture search: the state of a run, its steps, and the answer of a state.
//
// All functions are helpers for other crates, whose callers prove what they require.
#![tactic(auto)]

ghost use Rattle.std.specs.Prelude.{◌≡◌, ◌++◌, ◌-◌, ◌≤◌, ◌<◌, length, take, drop, replicate, pos, option_copied};
ghost use Rattle.files.specs.Book.{boats, columns};
ghost use Rattle.files.specs.Sheet.{files_refusal};
ghost use Rattle.files.specs.Bytes.{values};
ghost use Rattle.method.specs.declared.Test.TheVariants.{Sharper};
ghost use Rattle.method.specs.Problem.{Schedule};
ghost use Rattle.method.specs.Calls.{schedule_in, schedule_refusal};
ghost use Rattle.method.specs.Plain.{plain_problem};
ghost use Rattle.method.specs.Answers.{answer_at};
ghost use Rattle.scoring.specs.Scores.{least_of};
ghost use Rattle.iteration.specs.States.{file_layout, boat_difference, boat_products, target_product, iterate_of, pick_at, Holds};
ghost use Rattle.iteration.specs.Moves.{moved_distance, Moves, next_state, Steppable};
ghost use Rattle.iteration.specs.Measures.{answer_by, measure, tolerance_of, Answerable, Measurable};

use method::{Answer, Test};
use scoring::Least;

// Where the rows of a fleet book and the target of a sheet stand in their bytes: the offset of the first row, and of the target.
#[derive(Clone, Copy)]
pub struct Layout {
    pub boats: usize,
    pub columns: usize,
    pub rows: usize,
    pub target: usize,
}

// The layout of files that are not refused.
pub fn layout_of(book: &[u8], sheet: &[u8]) -> Layout
    requires { files_refusal book.now sheet.now ≡ 0 }
    ensures { result ≡ file_layout book.now sheet.now }
{
    Layout {
        boats: files::boats(book),
        columns: files::columns(book),
        rows: files::book_body(book),
        target: files::sheet_body(sheet),
    }
}

// The products <v - u, w> of a boat's row v less the target u with every row w, in the first slots of `to`, and that with the target.
pub fn products_of(boat: usize, book: &[u8], sheet: &[u8], layout: Layout, to: &mut [i32]) -> i32
    requires sheet_value { files_refusal book.now sheet.now ≡ 0 }
    requires layout_value { layout ≡ file_layout book.now sheet.now }
    requires boat_bound { boat < boats book.now }
    requires book_in_bounds { boats book.now ≤ length to.old }
    ensures to_after { to.new ≡ boat_products book.now sheet.now boat ++ drop (boats book.now) to.old }
    ensures value { result ≡ target_product book.now sheet.now boat }
{
    let rows = layout.rows;
    let target = layout.target;
    let boats = layout.boats;
    let columns = layout.columns;
    let row = rows + 2 * (boat * columns);
    let mut d = [0i16; 64];
    sums::difference(book, row, sheet, target, columns, &mut d);
    scoring::products(&d, book, rows, boats, columns, to);
    sums::narrow_inner(&d, sheet, target, columns)
}

// The least of a boat's products. Of boat 0 it gives the first pick, before which no boat holds shares.
pub fn least_product_of(boat: usize, book: &[u8], sheet: &[u8], layout: Layout) -> Least
    requires sheet_value { files_refusal book.now sheet.now ≡ 0 }
    requires layout_value { layout ≡ file_layout book.now sheet.now }
    requires boat_bound { boat < boats book.now }
    ensures { result ≡ least_of (boat_products book.now sheet.now boat) }
{
    let boats = layout.boats;
    let mut products = [0i32; 256];
    products_of(boat, book, sheet, layout, &mut products);
    scoring::least_product(&products, boats)
}

// E of the residual r + k d, where d is a row v less the target u, from E of r: E + 2 k (<r, v> - <r, u>) + k² (<d, v> - <d, u>).
fn distance_after(e: u64, k: u32, score: i64, target_score: i64, own: i32, target: i32) -> u64
    requires k_bound { k ≤ State.MOST_STEPS }
    requires moves { Moves e k score target_score own target }
    ensures { pos result ≡ moved_distance e k score target_score own target }
{
    let z = k as i64;
    let slope = 2 * (score - target_score);
    let curve = z * (own as i64 - target as i64);
    (e as i64 + z * (slope + curve)) as u64
}

// A run after some steps: W, E and the score <r, u> of the target under the residual r = y - W u, and the boat that the next
// step picks, with its score. The shares and the scores of the boats are kept beside it.
#[derive(Clone, Copy)]
pub struct State {
    pub steps: u32,
    pub weight: u32,
    pub distance: u64,
    pub target_score: i64,
    pub best: usize,
    pub least: i64,
}

impl State {
    // A run takes at most as many steps as a sheet may ask for, 360.
    pub const MOST_STEPS: u32 = files::MOST_STEPS;

    // No step taken, r = 0, and the boat that the first step picks, whatever shares are to come.
    pub fn fresh(book: &[u8], sheet: &[u8], layout: Layout) -> State
        requires sheet_value { files_refusal book.now sheet.now ≡ 0 }
        requires layout_value { layout ≡ file_layout book.now sheet.now }
        ensures { (a : Schedule) → Holds a book.now sheet.now 0 result }
    {
        let first = least_product_of(0, book, sheet, layout);
        State {
            steps: 0,
            weight: 0,
            distance: 0,
            target_score: 0,
            best: first.boat,
            least: first.score,
        }
    }

    // A step of k shares: the boat picked gets k more, and the residual moves by k d, where d is its row less the target. `score` is its score
    // under r before the step, `own` the product of d with its row, `target` that with the target; `pick` is the boat that the step after it picks.
    pub fn next(self, k: u32, score: i64, own: i32, target: i32, pick: Least) -> State
        requires fact { (self.steps < State.MOST_STEPS) × (k ≤ State.MOST_STEPS) }
        requires steppable { Steppable self k score own target }
        ensures { result ≡ next_state self k score own target pick }
    {
        let target_score = self.target_score;
        let distance = distance_after(self.distance, k, score, target_score, own, target);
        State {
            steps: self.steps + 1,
            weight: self.weight + k,
            distance,
            target_score: target_score + k as i64 * target as i64,
            best: pick.boat,
            least: pick.score,
        }
    }
}

// The answer of total w, distance E and the target's score after so many steps, with the least of the boats' scores, judged by the test.
fn answered(
    test: Test,
    steps: u32,
    w: u32,
    e: u64,
    target_score: i64,
    least: i64,
    sheet: &[u8],
) -> Answer
    requires { Answerable e w target_score least sheet.now }
    ensures { result ≡ answer_by test steps w (tolerance_of sheet.now) e target_score least }
{
    let g = sums::gap_of(e, w, target_score, least);
    let verdict = verdicts::judge(test, files::tolerance(sheet), w, e, g);
    Answer {
        steps,
        weight: w,
        distance: e,
        gap: g,
        verdict,
    }
}

// The answer of a residual r of total w after so many steps, with the least of the boats' scores, judged by the test.
pub fn measured(
    test: Test,
    steps: u32,
    w: u32,
    r: &[i32],
    least: i64,
    sheet: &[u8],
    layout: Layout,
) -> Answer
    requires { Measurable r.now w least sheet.now layout }
    ensures { result ≡ measure test steps w (tolerance_of sheet.now) (take layout.columns r.now) (values layout.columns (drop layout.target sheet.now)) least }
{
    let columns = layout.columns;
    let target = layout.target;
    let e = sums::squared_norm(r, columns);
    let target_score = sums::inner_at(r, sheet, target, columns);
    answered(test, steps, w, e, target_score, least, sheet)
}

// The answer after the first step, which picks this boat. No state is made, for a run that ends here.
pub fn first_answer(
    boat: usize,
    book: &[u8],
    sheet: &[u8],
    table: Option<&[u16]>,
    layout: Layout,
) -> Answer
    requires sheet_value { files_refusal book.now sheet.now ≡ 0 }
    requires table_value { schedule_refusal (schedule_in (option_copied table)) ≡ 0 }
    requires layout_value { layout ≡ file_layout book.now sheet.now }
    requires boat_value { boat ≡ pick_at (schedule_in (option_copied table)) book.now sheet.now 0 }
    ensures { result ≡ answer_at Sharper (plain_problem (schedule_in (option_copied table.entry)) book.now sheet.now) 1 (iterate_of (schedule_in (option_copied table.entry)) book.now sheet.now 1) }
{
    let boats = layout.boats;
    let mut products = [0i32; 256];
    let target = products_of(boat, book, sheet, layout, &mut products);
    let own = products[boat];
    let pick = scoring::least_product(&products, boats);
    let k = schedules::share(table, 0);
    let z = k as i64;
    let e = distance_after(0, k, 0, 0, own, target);
    let target_score = z * target as i64;
    let least = z * pick.score;
    answered(Test::Sharper, 1, k, e, target_score, least, sheet)
}

impl State {
    // The answer after the steps taken.
    pub fn answer(self, sheet: &[u8]) -> Answer
        requires { Answerable self.distance self.weight self.target_score self.least sheet.now }
        ensures { result ≡ answer_by Sharper self.steps self.weight (tolerance_of sheet.now) self.distance self.target_score self.least }
    {
        answered(
            Test::Sharper,
            self.steps,
            self.weight,
            self.distance,
            self.target_score,
            self.least,
            sheet,
        )
    }
}
