// What refuses a call of the search, the card writer or the card check ahead of its share list, buffer or card: its terms and its files.
//
// Helper for other crates: call_refusal. It asks nothing of its caller.
#![tactic(auto)]

ghost use Rattle.std.specs.Prelude.{◌≡◌, true, option_copied};
ghost use Rattle.refusals.specs.Numbers.{refusal_number};
ghost use Rattle.method.specs.ReleasedBoats.{usable};
ghost use Rattle.method.specs.Calls.{terms_in, released_refusal, call_refusal};

use method::Released;
use refusals::Refusal;

// Where the call is limited to a set: 1 to 6 of the book, then 52 of the set, then 11 to 17 and 46 of the sheet.
fn limited_refusal(book: &[u8], sheet: &[u8], released: Released) -> Result<(), Refusal>
    requires { released.limited ≡ true }
    ensures { refusal_number result ≡ released_refusal (usable released) book.now sheet.now }
{
    validation::book_refusal(book)?;
    released_set::set_refusal(released, files::boats(book))?;
    validation::sheet_refusal(sheet, files::columns(book) as u32)
}

// The first reason that refuses the terms or the files: 49 to 51 of a lent table, then 1 to 17 and 46, with 52 of a released set after 6.
pub fn call_refusal(
    book: &[u8],
    sheet: &[u8],
    released: Released,
    table: Option<&[u16]>,
) -> Result<(), Refusal>
    ensures { refusal_number result ≡ call_refusal (terms_in released (option_copied table.entry)) book.now sheet.now }
{
    schedules::refusal(table)?;
    if released.limited {
        return limited_refusal(book, sheet, released);
    }
    validation::files_refusal(book, sheet)
}
