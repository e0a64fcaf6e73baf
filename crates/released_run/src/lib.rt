// A run under the terms of a call. Where it is limited to a released set, a book of the released boats alone is made in local memory and
// searched, and the shares are put into the slots of these boats.
//
// Helper for other crates, whose callers prove what it requires: run.
#![tactic(auto)]

ghost use Rattle.std.specs.Prelude.{◌≡◌, true, ◌++◌, ◌≤◌, length, drop, option_copied};
ghost use Rattle.files.specs.Book.{boats};
ghost use Rattle.method.specs.Problem.{call_problem};
ghost use Rattle.method.specs.Calls.{terms_in, call_refusal};
ghost use Rattle.method.specs.Answers.{run_answer, run_slots};

use method::{Answer, Released};

// The run of a call that is limited to a set.
fn limited_run(
    book: &[u8],
    sheet: &[u8],
    released: Released,
    table: Option<&[u16]>,
    shares: &mut [u16],
) -> Answer
    requires limited_value { released.limited ≡ true }
    requires sheet_value { call_refusal (terms_in released (option_copied table)) book.now sheet.now ≡ 0 }
    requires book_in_bounds { boats book.now ≤ length shares.old }
    ensures value { result ≡ run_answer (call_problem (terms_in released (option_copied table.entry)) book.now sheet.now) }
    ensures shares_after { shares.new ≡ run_slots (terms_in released (option_copied table.entry)) book.now sheet.now ++ drop (boats book.now) shares.old }
{
    let mut own_book = [0u8; 32780];
    let n = released_book::put_book(&mut own_book, book, released);
    let mut own = [0u16; 256];
    let answer = factored_run::run(&own_book[..n], sheet, table, &mut own);
    released_set::scatter(&own, released, files::boats(book), shares);
    answer
}

// The run of a call whose terms and files are not refused: steps until one stops it. It leaves the shares in the first slots, one a boat
// of the book.
pub fn run(
    book: &[u8],
    sheet: &[u8],
    released: Released,
    table: Option<&[u16]>,
    shares: &mut [u16],
) -> Answer
    requires sheet_value { call_refusal (terms_in released (option_copied table)) book.now sheet.now ≡ 0 }
    requires book_in_bounds { boats book.now ≤ length shares.old }
    ensures value { result ≡ run_answer (call_problem (terms_in released (option_copied table.entry)) book.now sheet.now) }
    ensures shares_after { shares.new ≡ run_slots (terms_in released (option_copied table.entry)) book.now sheet.now ++ drop (boats book.now) shares.old }
{
    if released.limited {
        return limited_run(book, sheet, released, table, shares);
    }
    factored_run::run(book, sheet, table, shares)
}
