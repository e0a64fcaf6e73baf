// A run, and the answer of a list of shares, with the factors of the sheet. Where all are 1 the book and the sheet serve as they are; else
// a book and a sheet in which each column stands as often as its factor says are made in local memory.
//
// Helpers for other crates, whose callers prove what they require: run, answer_of.
#![tactic(auto)]

ghost use Rattle.std.specs.Prelude.{◌≡◌, true, ◌++◌, ◌≤◌, length, take, drop, option_copied};
ghost use Rattle.frank_wolfe.specs.Vectors.{sum};
ghost use Rattle.files.specs.Book.{boats};
ghost use Rattle.files.specs.Sheet.{WSH2, sheet_lettered, files_refusal};
ghost use Rattle.method.specs.Problem.{weight, allowed_steps, call_problem};
ghost use Rattle.method.specs.Calls.{schedule_in, schedule_refusal, terms};
ghost use Rattle.method.specs.Plain.{plain_problem};
ghost use Rattle.method.specs.Answers.{run_answer, run_iterate};
ghost use Rattle.method.specs.Bounds.{answer_of};

use iteration::State;
use method::{Answer, Test};

// The run of a sheet of the edition WSH2, on derived files.
fn derived_run(book: &[u8], sheet: &[u8], table: Option<&[u16]>, shares: &mut [u16]) -> Answer
    requires sheet_value { files_refusal book.now sheet.now ≡ 0 }
    requires table_value { schedule_refusal (schedule_in (option_copied table)) ≡ 0 }
    requires sheet_value_2 { sheet_lettered WSH2 sheet.now ≡ true }
    requires book_in_bounds { boats book.now ≤ length shares.old }
    ensures value { result ≡ run_answer (call_problem (terms (option_copied table.entry)) book.now sheet.now) }
    ensures shares_after { shares.new ≡ (run_iterate (call_problem (terms (option_copied table.entry)) book.now sheet.now)).shares ++ drop (boats book.now) shares.old }
{
    let factors = factors::factors_of(sheet);
    let mut own_book = [0u8; 32780];
    let n = derived_files::put_book(&mut own_book, book, factors);
    let mut own_sheet = [0u8; 144];
    let m = derived_files::put_sheet(&mut own_sheet, sheet, factors);
    plain_run::run(&own_book[..n], &own_sheet[..m], table, shares)
}

// The run of files and shares that are not refused: steps until one stops it. It leaves the shares in the first slots, one a boat.
pub fn run(book: &[u8], sheet: &[u8], table: Option<&[u16]>, shares: &mut [u16]) -> Answer
    requires sheet_value { files_refusal book.now sheet.now ≡ 0 }
    requires table_value { schedule_refusal (schedule_in (option_copied table)) ≡ 0 }
    requires book_in_bounds { boats book.now ≤ length shares.old }
    ensures value { result ≡ run_answer (call_problem (terms (option_copied table.entry)) book.now sheet.now) }
    ensures shares_after { shares.new ≡ (run_iterate (call_problem (terms (option_copied table.entry)) book.now sheet.now)).shares ++ drop (boats book.now) shares.old }
{
    if factors::is_plain(sheet) {
        return plain_run::run(book, sheet, table, shares);
    }
    derived_run(book, sheet, table, shares)
}

// The answer of the first shares, one a boat, after t steps, with every factor 1.
fn plain_answer(
    test: Test,
    book: &[u8],
    sheet: &[u8],
    table: Option<&[u16]>,
    shares: [u16; 256],
    t: u32,
) -> Answer
    requires sheet_value { files_refusal book.now sheet.now ≡ 0 }
    requires table_value { schedule_refusal (schedule_in (option_copied table)) ≡ 0 }
    requires fact { (1 ≤ t) × (t ≤ allowed_steps (schedule_in (option_copied table)) State.MOST_STEPS) }
    requires shares_value { sum (take (boats book.now) shares) ≡ weight (schedule_in (option_copied table)) t }
    ensures { result ≡ answer_of test (plain_problem (schedule_in (option_copied table.entry)) book.now sheet.now) (take (boats book.now) shares) t }
{
    let layout = iteration::layout_of(book, sheet);
    mixture_answer::answer_of(test, book, sheet, table, layout, shares, t)
}

// The same with the factors of a sheet of the edition WSH2, on derived files.
fn derived_answer(
    test: Test,
    book: &[u8],
    sheet: &[u8],
    table: Option<&[u16]>,
    shares: [u16; 256],
    t: u32,
) -> Answer
    requires sheet_value { files_refusal book.now sheet.now ≡ 0 }
    requires table_value { schedule_refusal (schedule_in (option_copied table)) ≡ 0 }
    requires sheet_value_2 { sheet_lettered WSH2 sheet.now ≡ true }
    requires fact { (1 ≤ t) × (t ≤ allowed_steps (schedule_in (option_copied table)) State.MOST_STEPS) }
    requires shares_value { sum (take (boats book.now) shares) ≡ weight (schedule_in (option_copied table)) t }
    ensures { result ≡ answer_of test (call_problem (terms (option_copied table.entry)) book.now sheet.now) (take (boats book.now) shares) t }
{
    let factors = factors::factors_of(sheet);
    let mut own_book = [0u8; 32780];
    let n = derived_files::put_book(&mut own_book, book, factors);
    let mut own_sheet = [0u8; 144];
    let m = derived_files::put_sheet(&mut own_sheet, sheet, factors);
    plain_answer(test, &own_book[..n], &own_sheet[..m], table, shares, t)
}

// The answer of the first shares, one a boat, after t steps, judged by the test.
pub fn answer_of(
    test: Test,
    book: &[u8],
    sheet: &[u8],
    table: Option<&[u16]>,
    shares: [u16; 256],
    t: u32,
) -> Answer
    requires sheet_value { files_refusal book.now sheet.now ≡ 0 }
    requires table_value { schedule_refusal (schedule_in (option_copied table)) ≡ 0 }
    requires fact { (1 ≤ t) × (t ≤ allowed_steps (schedule_in (option_copied table)) State.MOST_STEPS) }
    requires shares_value { sum (take (boats book.now) shares) ≡ weight (schedule_in (option_copied table)) t }
    ensures { result ≡ answer_of test (call_problem (terms (option_copied table.entry)) book.now sheet.now) (take (boats book.now) shares) t }
{
    if factors::is_plain(sheet) {
        return plain_answer(test, book, sheet, table, shares, t);
    }
    derived_answer(test, book, sheet, table, shares, t)
}
