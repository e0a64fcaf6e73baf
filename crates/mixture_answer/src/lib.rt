// The answer of a list of shares, one a boat, which need not come from a run: its residual, and E, G and the verdict from it.
//
// Helpers for other crates, whose callers prove what they require: residual_of, answer_of.
#![tactic(auto)]

ghost use Rattle.std.specs.Prelude.{◌≡◌, ◌≤◌, take, option_copied};
ghost use Rattle.frank_wolfe.specs.Vectors.{subtract, scale, sum, combination};
ghost use Rattle.files.specs.Book.{boats, columns, rows};
ghost use Rattle.files.specs.Sheet.{files_refusal};
ghost use Rattle.files.specs.Sheet as Sheets;
ghost use Rattle.files.specs.Limits.{total_limit};
ghost use Rattle.method.specs.Problem.{weight, allowed_steps};
ghost use Rattle.method.specs.Calls.{schedule_in, schedule_refusal};
ghost use Rattle.method.specs.Plain.{plain_problem};
ghost use Rattle.iteration.specs.States.{file_layout};
ghost use Rattle.method.specs.Bounds.{answer_of};

use iteration::{Layout, State};
use method::{Answer, Test};

// The residual of the first shares, one a boat: the sum over the boats of share × (row - target), one entry a column.
pub fn residual_of(book: &[u8], sheet: &[u8], layout: Layout, shares: [u16; 256]) -> [i32; 64]
    requires sheet_value { files_refusal book.now sheet.now ≡ 0 }
    requires layout_value { layout ≡ file_layout book.now sheet.now }
    requires shares_bound { sum (take (boats book.now) shares) ≤ total_limit }
    ensures { take (columns book.now) result ≡ subtract (combination (columns book.now) (take (boats book.now) shares) (rows book.now)) (scale (sum (take (boats book.now) shares)) (Sheets.sheet sheet.now).target) }
{
    let rows = layout.rows;
    let target = layout.target;
    let columns = layout.columns;
    let boats = layout.boats;
    let mut r = [0i32; 64];
    for i in 0..boats {
        let row = rows + 2 * (i * columns);
        let share = card_pairs::wide(shares[i]);
        let next = sums::moved(r, book, row, sheet, target, columns, share);
        r = next;
    }
    r
}

// The answer of the first shares, one a boat, after t steps, judged by the test.
pub fn answer_of(
    test: Test,
    book: &[u8],
    sheet: &[u8],
    table: Option<&[u16]>,
    layout: Layout,
    shares: [u16; 256],
    t: u32,
) -> Answer
    requires sheet_value { files_refusal book.now sheet.now ≡ 0 }
    requires table_value { schedule_refusal (schedule_in (option_copied table)) ≡ 0 }
    requires layout_value { layout ≡ file_layout book.now sheet.now }
    requires fact { (1 ≤ t) × (t ≤ allowed_steps (schedule_in (option_copied table)) State.MOST_STEPS) }
    requires shares_value { sum (take (boats book.now) shares) ≡ weight (schedule_in (option_copied table)) t }
    ensures { result ≡ answer_of test (plain_problem (schedule_in (option_copied table.entry)) book.now sheet.now) (take (boats book.now) shares) t }
{
    let rows = layout.rows;
    let columns = layout.columns;
    let boats = layout.boats;
    let r = residual_of(book, sheet, layout, shares);
    let least = scoring::least_score(&r, book, rows, boats, columns);
    iteration::measured(
        test,
        t,
        schedules::total(table, t),
        &r,
        least.score,
        sheet,
        layout,
    )
}
