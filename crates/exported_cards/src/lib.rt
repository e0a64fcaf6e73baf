// Functions for programs in other languages: cards written, checked, chosen and worked over. Each is a thin function over an entry of another crate;
// exported_cards_c exports them for C.
//
// Entries, which ask nothing of their caller: dofitrano_check_card, dofitrano_write_card, dofitrano_check_card_with, dofitrano_write_card_with, dofitrano_better_card, dofitrano_work_over.
// A slice passes as a pointer and a length; include/dofitrano.h declares the functions for C and says what a caller in another
// language must see to. The first clause of a contract gives the reply, the second every slot or byte that was lent, the third
// what the entry behind it promises of both.
#![tactic(auto)]

ghost use Rattle.std.specs.Prelude.{◌≡◌, false, ◌+◌, ◌≤◌, length};
ghost use Rattle.method.specs.Problem.{plain_terms, call_problem, problem};
ghost use Rattle.method.specs.Calls.{call_terms};
ghost use Rattle.method.specs.Answers.{outcome, slots_after, run_answer};
ghost use Rattle.files.specs.Book.{boats};
ghost use Rattle.card_format.specs.Format.{card_shares, card_answer_with, card_answer, run_card_with, run_card};
ghost use Rattle.card_format.specs.Checks.{write_refusal_with, write_refusal, check_refusal_with, check_refusal};
ghost use Rattle.card_format.specs.Filing.{filing, FilingRightWith, FilingRight};
ghost use Rattle.card_format.specs.Checking.{CheckRightWith, CheckRight};
ghost use Rattle.exported_types.specs.Replies.{reply_of, card_reply_of};
ghost use Rattle.better_card_promise.specs.Choices.{numbered, part_of, choice};
ghost use Rattle.better_card_promise.specs.Promise.{BetterRight};
ghost use Rattle.pairwise.specs.Moves.{worked_answer};
ghost use Rattle.pairwise.specs.Call.{set_terms, worked_card, work_refusal, WorkingRight};

use better_card_promise::Choice;
use exported_types::{CardReply, Reply};
use method::Released;

// ENTRY. The card check for other languages: the reply of `check_card` for these files and this share list, and its slots afterwards.
pub fn dofitrano_check_card(book: &[u8], sheet: &[u8], card: &[u8], shares: &mut [u16]) -> Reply
    ensures value { result ≡ reply_of (outcome (check_refusal book.now sheet.now card.now (length shares.old)) (card_answer book.now sheet.now card.now)) }
    ensures shares_after { shares.new ≡ slots_after (check_refusal book.now sheet.now card.now (length shares.old)) (card_shares (boats book.now) card.now) shares.old }
    ensures check_right { CheckRight book.now sheet.now card.now (outcome (check_refusal book.now sheet.now card.now (length shares.old)) (card_answer book.now sheet.now card.now)) shares.new }
{
    let found = card::check_card(book, sheet, card, &mut *shares);
    exported_types::reply_to(found)
}

// ENTRY. The card writer for other languages: the reply of `write_card` for these files and this buffer, and its bytes afterwards.
pub fn dofitrano_write_card(book: &[u8], sheet: &[u8], output: &mut [u8]) -> CardReply
    ensures value { result ≡ card_reply_of (filing (write_refusal book.now sheet.now (length output.old)) (run_answer (problem book.now sheet.now)) (length (run_card book.now sheet.now))) }
    ensures output_after { output.new ≡ slots_after (write_refusal book.now sheet.now (length output.old)) (run_card book.now sheet.now) output.old }
    ensures filing_right { FilingRight book.now sheet.now (filing (write_refusal book.now sheet.now (length output.old)) (run_answer (problem book.now sheet.now)) (length (run_card book.now sheet.now))) output.new }
{
    let written = written_card::write_card(book, sheet, &mut *output);
    exported_types::card_reply_to(written)
}

// ENTRY. The card check with a released set and a lent table for other languages: the reply of `check_card_with`, and the share list's slots afterwards.
pub fn dofitrano_check_card_with(
    book: &[u8],
    sheet: &[u8],
    released: Released,
    lent: bool,
    table: &[u16],
    card: &[u8],
    shares: &mut [u16],
) -> Reply
    ensures value { result ≡ reply_of (outcome (check_refusal_with (call_terms released lent table.now) book.now sheet.now card.now (length shares.old)) (card_answer_with (call_terms released lent table.now) book.now sheet.now card.now)) }
    ensures shares_after { shares.new ≡ slots_after (check_refusal_with (call_terms released lent table.now) book.now sheet.now card.now (length shares.old)) (card_shares (boats book.now) card.now) shares.old }
    ensures check_right_with { CheckRightWith (call_terms released lent table.now) book.now sheet.now card.now (outcome (check_refusal_with (call_terms released lent table.now) book.now sheet.now card.now (length shares.old)) (card_answer_with (call_terms released lent table.now) book.now sheet.now card.now)) shares.new }
    ensures table_value { released.limited ≡ false → lent ≡ false → call_terms released lent table.now ≡ plain_terms }
{
    let own_table = exported_types::lent_table(lent, table);
    let found = card::check_card_with(book, sheet, released, own_table, card, &mut *shares);
    exported_types::reply_to(found)
}

// ENTRY. The card writer with a released set and a lent table for other languages: the reply of `write_card_with`, and the buffer's bytes afterwards.
pub fn dofitrano_write_card_with(
    book: &[u8],
    sheet: &[u8],
    released: Released,
    lent: bool,
    table: &[u16],
    output: &mut [u8],
) -> CardReply
    ensures value { result ≡ card_reply_of (filing (write_refusal_with (call_terms released lent table.now) book.now sheet.now (length output.old)) (run_answer (call_problem (call_terms released lent table.now) book.now sheet.now)) (length (run_card_with (call_terms released lent table.now) book.now sheet.now))) }
    ensures output_after { output.new ≡ slots_after (write_refusal_with (call_terms released lent table.now) book.now sheet.now (length output.old)) (run_card_with (call_terms released lent table.now) book.now sheet.now) output.old }
    ensures filing_right_with { FilingRightWith (call_terms released lent table.now) book.now sheet.now (filing (write_refusal_with (call_terms released lent table.now) book.now sheet.now (length output.old)) (run_answer (call_problem (call_terms released lent table.now) book.now sheet.now)) (length (run_card_with (call_terms released lent table.now) book.now sheet.now))) output.new }
    ensures table_value { released.limited ≡ false → lent ≡ false → call_terms released lent table.now ≡ plain_terms }
{
    let own_table = exported_types::lent_table(lent, table);
    let written = written_card::write_card_with(book, sheet, released, own_table, &mut *output);
    exported_types::card_reply_to(written)
}

// ENTRY. The better of two cards for other languages: which card, offset and length of its body and trailer, or the refusal, as `choose`
// gives them.
pub fn dofitrano_better_card(book: &[u8], sheet: &[u8], first: &[u8], second: &[u8]) -> Choice
    ensures value { result ≡ choice book.now sheet.now first.now second.now }
    ensures better_right { BetterRight book.now sheet.now first.now second.now result.refusal (part_of result first.now second.now) }
    ensures len_in_bounds { result.offset + result.len ≤ length (numbered result.card first.now second.now) }
{
    better_card::choose(book, sheet, first, second)
}

// ENTRY. A Spent search worked over and filed for other languages: the reply of `work_over`, and the buffer's bytes afterwards.
pub fn dofitrano_work_over(
    book: &[u8],
    sheet: &[u8],
    released: Released,
    moves: u32,
    output: &mut [u8],
) -> CardReply
    ensures value { result ≡ card_reply_of (filing (work_refusal (set_terms released) book.now sheet.now moves (length output.old)) (worked_answer (call_problem (set_terms released) book.now sheet.now) moves) (length (worked_card (set_terms released) book.now sheet.now moves))) }
    ensures output_after { output.new ≡ slots_after (work_refusal (set_terms released) book.now sheet.now moves (length output.old)) (worked_card (set_terms released) book.now sheet.now moves) output.old }
    ensures working_right { WorkingRight (set_terms released) book.now sheet.now moves (filing (work_refusal (set_terms released) book.now sheet.now moves (length output.old)) (worked_answer (call_problem (set_terms released) book.now sheet.now) moves) (length (worked_card (set_terms released) book.now sheet.now moves))) output.new }
{
    let written = worked_card::work_over(book, sheet, released, moves, &mut *output);
    exported_types::card_reply_to(written)
}
