// A run that is worked over: the search, the moves where it ends Spent, and the answer of the shares that they leave. Where a factor is not 1
// the moves are made on derived files; where the call is limited to a set, all of it on a book of the released boats alone.
//
// Helper for other crates, whose callers prove what it requires: worked.
#![tactic(auto)]

ghost use Rattle.std.specs.Prelude.{◌≡◌, true, ◌++◌, take, drop};
ghost use Rattle.refusals.specs.Numbers.{refusal_number};
ghost use Rattle.frank_wolfe.specs.Vectors.{sum};
ghost use Rattle.files.specs.Book.{boats};
ghost use Rattle.files.specs.Sheet.{WSH2, sheet_lettered, files_refusal};
ghost use Rattle.files.specs.Sheet as Sheets;
ghost use Rattle.method.specs.Problem.{fixed, weight, plain_terms, problem};
ghost use Rattle.method.specs.Calls.{call_refusal};
ghost use Rattle.method.specs.Plain.{plain_problem};
ghost use Rattle.pairwise.specs.Moves.{moves, spent_refusal};
ghost use Rattle.pairwise.specs.Call.{set_terms};
ghost use Rattle.pairwise_run.specs.Result.{Result};

use method::{Answer, Released, Test};
use refusals::Refusal;

// The most moves that may be allowed.
const MOST_MOVES: u32 = 1000;

// A run worked over: the answer of the result, and its shares in the first slots, one a boat of the book.
#[derive(Clone, Copy)]
pub struct WorkedRun {
    pub answer: Answer,
    pub shares: [u16; 256],
}

// The shares after at most so many moves, with every factor 1.
fn plain_moves(book: &[u8], sheet: &[u8], shares: [u16; 256], allowed: u32) -> [u16; 256]
    requires sheet_value { files_refusal book.now sheet.now ≡ 0 }
    requires shares_value { sum (take (boats book.now) shares) ≡ weight fixed (Sheets.sheet sheet.now).steps }
    ensures { result ≡ moves allowed (plain_problem fixed book.now sheet.now) (take (boats book.now) shares) ++ drop (boats book.now) shares }
{
    let layout = iteration::layout_of(book, sheet);
    pairwise_moves::worked_over(book, sheet, layout, shares, allowed)
}

// The same with the factors of a sheet of the edition WSH2, on derived files.
fn derived_moves(book: &[u8], sheet: &[u8], shares: [u16; 256], allowed: u32) -> [u16; 256]
    requires sheet_value { files_refusal book.now sheet.now ≡ 0 }
    requires sheet_value_2 { sheet_lettered WSH2 sheet.now ≡ true }
    requires shares_value { sum (take (boats book.now) shares) ≡ weight fixed (Sheets.sheet sheet.now).steps }
    ensures { result ≡ moves allowed (problem book.now sheet.now) (take (boats book.now) shares) ++ drop (boats book.now) shares }
{
    let factors = factors::factors_of(sheet);
    let mut own_book = [0u8; 32780];
    let n = derived_files::put_book(&mut own_book, book, factors);
    let mut own_sheet = [0u8; 144];
    let m = derived_files::put_sheet(&mut own_sheet, sheet, factors);
    plain_moves(&own_book[..n], &own_sheet[..m], shares, allowed)
}

// The first shares, one a boat, after at most so many moves, with the factors of the sheet; later slots as they were.
fn moves_of(book: &[u8], sheet: &[u8], shares: [u16; 256], allowed: u32) -> [u16; 256]
    requires sheet_value { files_refusal book.now sheet.now ≡ 0 }
    requires shares_value { sum (take (boats book.now) shares) ≡ weight fixed (Sheets.sheet sheet.now).steps }
    ensures { result ≡ moves allowed (problem book.now sheet.now) (take (boats book.now) shares) ++ drop (boats book.now) shares }
{
    if factors::is_plain(sheet) {
        return plain_moves(book, sheet, shares, allowed);
    }
    derived_moves(book, sheet, shares, allowed)
}

// 53 where the number of the run's verdict is not that of Spent; then 54 where the moves allowed are none or above 1,000.
fn spent_refusal(verdict: u32, allowed: u32) -> Result<(), Refusal>
    ensures { refusal_number result ≡ spent_refusal verdict allowed }
{
    if verdict != 3 {
        return Err(Refusal::VerdictNotSpent);
    }
    if allowed < 1 {
        return Err(Refusal::MovesAllowed);
    }
    if MOST_MOVES < allowed {
        return Err(Refusal::MovesAllowed);
    }
    Ok(())
}

// The run of all boats of a book, worked over.
fn fleet_worked(book: &[u8], sheet: &[u8], allowed: u32) -> Result<WorkedRun, Refusal>
    requires { files_refusal book.now sheet.now ≡ 0 }
    ensures { Result plain_terms book.now sheet.now allowed result }
{
    let mut shares = [0u16; 256];
    let run = factored_run::run(book, sheet, None, &mut shares);
    let verdict = run.verdict;
    spent_refusal(verdicts::verdict_number(verdict), allowed)?;
    let moved = moves_of(book, sheet, shares, allowed);
    let result = factored_run::answer_of(Test::Sharper, book, sheet, None, moved, run.steps);
    Ok(WorkedRun {
        answer: result,
        shares: moved,
    })
}

// The run of a call that is limited to a set, worked over.
fn limited_worked(
    book: &[u8],
    sheet: &[u8],
    released: Released,
    allowed: u32,
) -> Result<WorkedRun, Refusal>
    requires limited_value { released.limited ≡ true }
    requires sheet_value { call_refusal (set_terms released) book.now sheet.now ≡ 0 }
    ensures { Result (set_terms released) book.now sheet.now allowed result }
{
    let mut own_book = [0u8; 32780];
    let n = released_book::put_book(&mut own_book, book, released);
    let own = fleet_worked(&own_book[..n], sheet, allowed)?;
    let answer = own.answer;
    let found = own.shares;
    let mut shares = [0u16; 256];
    released_set::scatter(&found, released, files::boats(book), &mut shares);
    Ok(WorkedRun { answer, shares })
}

// The run of a call whose set and files are not refused, worked over by at most so many moves.
pub fn worked(
    book: &[u8],
    sheet: &[u8],
    released: Released,
    allowed: u32,
) -> Result<WorkedRun, Refusal>
    requires { call_refusal (set_terms released) book.now sheet.now ≡ 0 }
    ensures { Result (set_terms released) book.now sheet.now allowed result }
{
    if released.limited {
        return limited_worked(book, sheet, released, allowed);
    }
    fleet_worked(book, sheet, allowed)
}
