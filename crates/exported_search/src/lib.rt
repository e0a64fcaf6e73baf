// Functions for programs in other languages: the search and its listing. Each is a thin function over an entry of another crate;
// exported_search_c exports them for C.
//
// Entries, which ask nothing of their caller: dofitrano_search, dofitrano_search_with, dofitrano_listing.
// A slice passes as a pointer and a length; include/dofitrano.h declares the functions for C and says what a caller in another
// language must see to. The first clause of a contract gives the reply, the second every slot or byte that was lent, the third
// what the entry behind it promises of both.
#![tactic(auto)]

ghost use Rattle.std.specs.Prelude.{◌≡◌, false, ◌≤◌, length};
ghost use Rattle.method.specs.Problem.{plain_terms, call_problem, problem};
ghost use Rattle.method.specs.Calls.{call_terms};
ghost use Rattle.method.specs.Answers.{outcome, search_refusal_with, search_refusal, slots_after, run_answer, run_iterate, run_slots};
ghost use Rattle.method.specs.Promise.{OutcomeRightWith, OutcomeRight};
ghost use Rattle.search_listing.specs.Searches.{search_outcome, search_shares, search_listing};
ghost use Rattle.exported_types.specs.Replies.{reply_of};
ghost use Rattle.exported_search.specs.Buffers.{bytes_after, bytes_put};
ghost use Rattle.text.specs.Texts.{text_limit};

use exported_types::Reply;
use method::Released;

// ENTRY. The search for other languages: the reply of `search` for these files and this share list, and its slots afterwards.
pub fn dofitrano_search(book: &[u8], sheet: &[u8], shares: &mut [u16]) -> Reply
    ensures value { result ≡ reply_of (outcome (search_refusal book.now sheet.now (length shares.old)) (run_answer (problem book.now sheet.now))) }
    ensures shares_after { shares.new ≡ slots_after (search_refusal book.now sheet.now (length shares.old)) (run_iterate (problem book.now sheet.now)).shares shares.old }
    ensures outcome_right { OutcomeRight book.now sheet.now (outcome (search_refusal book.now sheet.now (length shares.old)) (run_answer (problem book.now sheet.now))) shares.new }
{
    let found = search::search(book, sheet, &mut *shares);
    exported_types::reply_to(found)
}

// ENTRY. The search with a released set and a lent table for other languages: the reply of `search_with`, and the share list's slots afterwards.
pub fn dofitrano_search_with(
    book: &[u8],
    sheet: &[u8],
    released: Released,
    lent: bool,
    table: &[u16],
    shares: &mut [u16],
) -> Reply
    ensures value { result ≡ reply_of (outcome (search_refusal_with (call_terms released lent table.now) book.now sheet.now (length shares.old)) (run_answer (call_problem (call_terms released lent table.now) book.now sheet.now))) }
    ensures shares_after { shares.new ≡ slots_after (search_refusal_with (call_terms released lent table.now) book.now sheet.now (length shares.old)) (run_slots (call_terms released lent table.now) book.now sheet.now) shares.old }
    ensures outcome_right_with { OutcomeRightWith (call_terms released lent table.now) book.now sheet.now (outcome (search_refusal_with (call_terms released lent table.now) book.now sheet.now (length shares.old)) (run_answer (call_problem (call_terms released lent table.now) book.now sheet.now))) shares.new }
    ensures table_value { released.limited ≡ false → lent ≡ false → call_terms released lent table.now ≡ plain_terms }
{
    let own_table = exported_types::lent_table(lent, table);
    let found = search::search_with(book, sheet, released, own_table, &mut *shares);
    exported_types::reply_to(found)
}

// ENTRY. The listing of a search for other languages, put into the first bytes of `output`: how many bytes it has. Later bytes are as
// they were. A buffer shorter than the listing is left as it was, and 0 is given back. No listing is empty or longer than 4,096 bytes.
pub fn dofitrano_listing(book: &[u8], sheet: &[u8], output: &mut [u8]) -> usize
    ensures value { (result ≡ bytes_put (search_listing book.now sheet.now) output.old) × ((1 ≤ length (search_listing book.now sheet.now)) × (length (search_listing book.now sheet.now) ≤ text_limit)) }
    ensures output_after { output.new ≡ bytes_after (search_listing book.now sheet.now) output.old }
    ensures outcome_right { OutcomeRight book.now sheet.now (search_outcome book.now sheet.now) (search_shares book.now sheet.now) }
{
    let text = search_listing::search_listing(book, sheet).text;
    let count = text.len;
    if output.len() < count {
        return 0;
    }
    let bytes = text.bytes;
    buffers::put_bytes(output, 0, &bytes[..count]);
    count
}
