// A card judged under the terms of a call: whether it rests on boats that may be used (36), and whether what it says is true of the shares
// of these boats (37 to 39).
//
// Helpers for other crates, whose callers prove what they require: rests, judged.
#![tactic(auto)]

ghost use Rattle.std.specs.Prelude.{◌≡◌, true, ◌||◌, ◌≤◌, eqb, length, take, option_copied};
ghost use Rattle.files.specs.Book.{boats};
ghost use Rattle.files.specs.Sheet.{files_refusal};
ghost use Rattle.method.specs.Searched.{searched};
ghost use Rattle.method.specs.ReleasedBoats.{usable, gather};
ghost use Rattle.method.specs.Problem.{call_steps, call_problem};
ghost use Rattle.method.specs.Calls.{terms, terms_in, schedule_in, schedule_refusal, call_refusal};
ghost use Rattle.method.specs.Answers.{outcome};
ghost use Rattle.method.specs.Bounds.{answer_of};
ghost use Rattle.card_format.specs.Format.{card_fields, card_test};
ghost use Rattle.card_format.specs.Checks.{rests, truth_refusal};
ghost use Rattle.card_truth.specs.Readable.{CardReadable};

use method::{Answer, Released};
use refusals::Refusal;

// Whether a share may stand: its boat may be used, or it is 0.
fn may_stand(used: bool, share: u16) -> bool
    ensures { result ≡ used || eqb share 0 }
{
    if used {
        return true;
    }
    share == 0
}

// Whether the first shares, one a boat, rest on boats that may be used.
pub fn rests(shares: [u16; 256], released: Released, boats: usize) -> bool
    requires { boats ≤ 256 }
    ensures { result ≡ rests (usable released) (take boats shares) }
{
    if !released.limited {
        return true;
    }
    for i in 0..boats {
        if !may_stand(released_set::may_use(released, i), shares[i]) {
            return false;
        }
    }
    true
}

// What a card says judged by the first shares, one a boat of the book: its answer, or the first reason, 37 to 39, that refuses it.
fn plain_judged(
    book: &[u8],
    sheet: &[u8],
    table: Option<&[u16]>,
    card: &[u8],
    shares: [u16; 256],
) -> Result<Answer, Refusal>
    requires sheet_value { files_refusal book.now sheet.now ≡ 0 }
    requires table_value { schedule_refusal (schedule_in (option_copied table)) ≡ 0 }
    requires card_readable { CardReadable (call_steps (terms (option_copied table)) sheet.now) card.now }
    ensures { searched result ≡ outcome (truth_refusal (call_problem (terms (option_copied table.entry)) book.now sheet.now) (take (boats book.now) shares) card.now) (answer_of (card_test card.now) (call_problem (terms (option_copied table.entry)) book.now sheet.now) (take (boats book.now) shares) (card_fields card.now).steps) }
{
    let layout = iteration::layout_of(book, sheet);
    card_truth::judged(book, sheet, table, layout, card, shares)
}

// The same of a call that is limited to a set, on a book of the released boats alone and their shares.
fn limited_judged(
    book: &[u8],
    sheet: &[u8],
    released: Released,
    table: Option<&[u16]>,
    card: &[u8],
    shares: [u16; 256],
) -> Result<Answer, Refusal>
    requires sheet_value { call_refusal (terms_in released (option_copied table)) book.now sheet.now ≡ 0 }
    requires card_readable { CardReadable (call_steps (terms (option_copied table)) sheet.now) card.now }
    ensures { searched result ≡ outcome (truth_refusal (call_problem (terms_in released (option_copied table.entry)) book.now sheet.now) (gather (usable released) (take (boats book.now) shares)) card.now) (answer_of (card_test card.now) (call_problem (terms_in released (option_copied table.entry)) book.now sheet.now) (gather (usable released) (take (boats book.now) shares)) (card_fields card.now).steps) }
{
    let mut own_book = [0u8; 32780];
    let n = released_book::put_book(&mut own_book, book, released);
    let own = released_set::gather(shares, released, files::boats(book));
    plain_judged(&own_book[..n], sheet, table, card, own)
}

// What a card says judged, under the terms of the call, by the first shares, one a boat of the book, of the boats that may be used.
pub fn judged(
    book: &[u8],
    sheet: &[u8],
    released: Released,
    table: Option<&[u16]>,
    card: &[u8],
    shares: [u16; 256],
) -> Result<Answer, Refusal>
    requires sheet_value { call_refusal (terms_in released (option_copied table)) book.now sheet.now ≡ 0 }
    requires card_readable { CardReadable (call_steps (terms (option_copied table)) sheet.now) card.now }
    ensures { searched result ≡ outcome (truth_refusal (call_problem (terms_in released (option_copied table.entry)) book.now sheet.now) (gather (usable released) (take (boats book.now) shares)) card.now) (answer_of (card_test card.now) (call_problem (terms_in released (option_copied table.entry)) book.now sheet.now) (gather (usable released) (take (boats book.now) shares)) (card_fields card.now).steps) }
{
    if released.limited {
        return limited_judged(book, sheet, released, table, card, shares);
    }
    plain_judged(book, sheet, table, card, shares)
}
