// What is known of a refusal of a card, in one line for standard error: which of the tests of its number fails first, with both numbers
// that it compares.
//
// The entry, which asks nothing of its caller: card_detail. Helper for other crates, whose callers prove what it requires:
// known_card_detail.
#![tactic(auto)]

ghost use Rattle.files.specs.declared.TheConstants.{MOST_STEPS};
ghost use Rattle.std.specs.Prelude.{◌≡◌, ◌+◌, ◌*◌, ◌≤◌, ◌<◌, length, take};
ghost use Rattle.frank_wolfe.specs.Vectors.{sum};
ghost use Rattle.files.specs.Book.{boats};
ghost use Rattle.files.specs.Sheet.{files_refusal};
ghost use Rattle.files.specs.Sheet as Sheets;
ghost use Rattle.text.specs.Texts.{Holds};
ghost use Rattle.method.specs.Problem.{fixed, weight};
ghost use Rattle.card_format.specs.Format.{card_fields, card_shares, card_answer};
ghost use Rattle.card_format.specs.Checks.{check_refusal};
ghost use Rattle.card_truth.specs.Readable.{CardReadable};
ghost use Rattle.card_details.specs.Words.{ITS_SHARES, IN_ENTRY, BOAT};
ghost use Rattle.card_details.specs.Details.{NEWLINE, said, counts, size_line, counts_line, steps_line, back_line, fault_number, option_number, entry_fault, entry_line, entries_line, total_line, numbers_line, tolerance_line, form_line, truth_line, card_detail};

use method::Answer;
use text::Text;

// A name, of which the first 100 bytes are told.
fn named(name: &[u8]) -> Text
    ensures holds { Holds (take 100 name.now) result }
    ensures len_bound { result.len ≤ 100 }
{
    if name.len() <= 100 {
        return Text::empty().with_bytes(name);
    }
    Text::empty().with_bytes(&name[..100])
}

// A name and words.
fn said(name: &[u8], words: &[u8]) -> Text
    requires { length words.now ≤ 100 }
    ensures { Holds (said name.now words.now) result }
{
    named(name).with_bytes(words)
}

// A name and two numbers, with words before, between and behind them.
fn counts(name: &[u8], words: &[u8], a: u64, then: &[u8], b: u64, end: &[u8]) -> Text
    requires { (length words.now ≤ 100) × (length then.now ≤ 100) × (length end.now ≤ 100) }
    ensures { Holds (counts name.now words.now a then.now b end.now) result }
{
    let begun = named(name).with_bytes(words);
    let first = begun.with_number(a);
    let between = first.with_bytes(then);
    let second = between.with_number(b);
    second.with_bytes(end)
}

// The line of a card that is too short or too long.
fn size_line(name: &[u8], card: &[u8]) -> Text
    ensures { Holds (size_line name.now card.now) result }
{
    if card.len() < 36 {
        return counts(
            name,
            b" has ",
            card.len() as u64,
            b" bytes, fewer than ",
            36,
            b"\n",
        );
    }
    said(name, b" has more than 40000 bytes\n")
}

// The line of a card of another book.
fn counts_line(name: &[u8], book: &[u8], card: &[u8]) -> Text
    requires { (12 ≤ length book.now) × (36 ≤ length card.now) }
    ensures { Holds (counts_line name.now book.now card.now) result }
{
    let own = files::u16_at(card, card.len() - 8);
    let boats = files::boats(book);
    if own as usize == boats {
        let columns = files::u16_at(card, card.len() - 6);
        return counts(
            name,
            b" has ",
            columns as u64,
            b" columns, fleet.wbk ",
            files::columns(book) as u64,
            b"\n",
        );
    }
    counts(
        name,
        b" has ",
        own as u64,
        b" boats, fleet.wbk ",
        boats as u64,
        b"\n",
    )
}

// The line of a card whose verdict or steps are out of range.
fn steps_line(name: &[u8], sheet: &[u8], card: &[u8]) -> Text
    requires { (16 ≤ length sheet.now) × (36 ≤ length card.now) }
    ensures { Holds (steps_line name.now sheet.now card.now) result }
{
    let verdict = files::u16_at(card, card.len() - 32);
    if file_parts::is_between(1, 3, verdict as usize) {
        return counts(
            name,
            b" has ",
            card_input::steps_used(card) as u64,
            b" steps, sheet.wsh ",
            files::steps(sheet) as u64,
            b"\n",
        );
    }
    counts(
        name,
        b" has the verdict ",
        verdict as u64,
        b", not from 1 to ",
        3,
        b"\n",
    )
}

// The line of a card whose back count does not fit.
fn back_line(name: &[u8], book: &[u8], card: &[u8]) -> Text
    requires { (12 ≤ length book.now) × (boats book.now ≤ 256) × (36 ≤ length card.now) }
    ensures { Holds (back_line name.now book.now card.now) result }
{
    let room = card.len() - 36;
    let back = files::u32_at(card, room);
    if back as usize <= room {
        return counts(
            name,
            b" has the back count ",
            back as u64,
            b", not a multiple of 4 from 4 to ",
            4 * (files::boats(book) as u64),
            b"\n",
        );
    }
    counts(
        name,
        b" has the back count ",
        back as u64,
        b", more than the ",
        room as u64,
        b" bytes before its trailer\n",
    )
}

// What is wrong with an entry of a card's list.
#[derive(Clone, Copy)]
pub enum EntryFault {
    // its boat is not above the boat before it
    NotAbove,
    // its boat is not in the book
    NotInBook,
    // its share is 0
    NoShare,
}

// What is wrong with an entry of a boat that may be from `next` on and below `boats`.
fn entry_fault(next: usize, boats: usize, boat: usize, share: u32) -> Option<EntryFault>
    ensures { option_number result ≡ entry_fault next boats boat share }
{
    if boat < next {
        return Some(EntryFault::NotAbove);
    }
    if boats <= boat {
        return Some(EntryFault::NotInBook);
    }
    if share == 0 {
        return Some(EntryFault::NoShare);
    }
    None
}

// The line of an entry, counted from 1, whose boat is followed by these words.
fn boat_line(name: &[u8], place: usize, boat: usize, words: &[u8]) -> Text
    requires { length words.now ≤ 100 }
    ensures { Holds (counts name.now IN_ENTRY place BOAT boat words.now) result }
{
    counts(
        name,
        b", entry ",
        place as u64,
        b": boat ",
        boat as u64,
        words,
    )
}

// The line of an entry, counted from 1, with this fault.
#[tactic(auto, unfolding(crate::specs::Details::entry_line))]
fn entry_line(name: &[u8], place: usize, boat: usize, fault: EntryFault) -> Text
    ensures { Holds (entry_line name.now place boat (fault_number fault)) result }
{
    match fault {
        EntryFault::NotAbove => boat_line(name, place, boat, b" is not above the boat before it\n"),
        EntryFault::NotInBook => boat_line(name, place, boat, b" is not in fleet.wbk\n"),
        EntryFault::NoShare => boat_line(name, place, boat, b" has a share of 0\n"),
    }
}

// The line of the first entry with a fault, of `count` from `start` on; no text where none has one.
fn entries_line(name: &[u8], card: &[u8], start: usize, count: usize, boats: usize) -> Text
    requires { start + 4 * count ≤ length card.now }
    ensures { Holds (entries_line name.now 0 count 0 boats start card.now) result }
{
    let mut next = 0;
    let mut at = start;
    for i in 0..count {
        let boat = files::u16_at(card, at) as usize;
        if let Some(fault) = entry_fault(next, boats, boat, files::u16_at(card, at + 2)) {
            return entry_line(name, i + 1, boat, fault);
        }
        next = boat + 1;
        at += 4;
    }
    Text::empty()
}

// The line of a card with too many boats for its steps or another total of shares, which are given, one a boat.
fn total_line(name: &[u8], book: &[u8], card: &[u8], shares: [u16; 256]) -> Text
    requires in_bounds { (12 ≤ length book.now) × (boats book.now ≤ 256) }
    requires fact { (36 ≤ length card.now) × ((card_fields card.now).steps ≤ MOST_STEPS) }
    requires shares_value { take (boats book.now) shares ≡ card_shares (boats book.now) card.now }
    ensures { Holds (total_line name.now book.now card.now) result }
{
    let t = card_input::steps_used(card);
    let count = card_input::pair_count(card);
    if (t as usize) < count {
        return counts(
            name,
            b" has shares of ",
            count as u64,
            b" boats, more than its ",
            t as u64,
            b" steps\n",
        );
    }
    let total = card_pairs::total(shares, files::boats(book));
    let weight = schedules::total(None, t);
    counts(
        name,
        b" has shares of total ",
        total as u64,
        b", not ",
        weight as u64,
        b"\n",
    )
}

// The line of a number of a card and of the number that its shares have in its place.
fn held(name: &[u8], words: &[u8], own: u64, found: u64) -> Text
    requires { length words.now ≤ 100 }
    ensures { Holds (counts name.now words.now own ITS_SHARES found NEWLINE) result }
{
    counts(name, words, own, b", its shares ", found, b"\n")
}

// The line of a card whose numbers are not those of an answer.
fn answer_line(name: &[u8], sheet: &[u8], card: &[u8], a: Answer) -> Text
    requires { (16 ≤ length sheet.now) × (36 ≤ length card.now) }
    ensures { Holds (numbers_line name.now sheet.now card.now a) result }
{
    let e = files::u64_at(card, card.len() - 24);
    if e != a.distance {
        return held(name, b" has the distance ", e, a.distance);
    }
    let g = files::u64_at(card, card.len() - 16);
    if g != a.gap {
        return held(name, b" has the gap ", g, a.gap);
    }
    let v = files::u16_at(card, card.len() - 32);
    let found = a.verdict;
    let verdict = verdicts::verdict_number(found);
    if v != verdict {
        return held(name, b" has the verdict ", v as u64, verdict as u64);
    }
    let t = card_input::steps_used(card);
    counts(
        name,
        b" is Spent at step ",
        t as u64,
        b", sheet.wsh has ",
        files::steps(sheet) as u64,
        b" steps\n",
    )
}

// The line of a card whose numbers are not those of its shares, which are given, one a boat.
fn numbers_line(name: &[u8], book: &[u8], sheet: &[u8], card: &[u8], shares: [u16; 256]) -> Text
    requires sheet_value { files_refusal book.now sheet.now ≡ 0 }
    requires card_readable { CardReadable (Sheets.sheet sheet.now).steps card.now }
    requires shares_value { take (boats book.now) shares ≡ card_shares (boats book.now) card.now }
    requires card_value { sum (card_shares (boats book.now) card.now) ≡ weight fixed (card_fields card.now).steps }
    ensures { Holds (numbers_line name.now sheet.now card.now (card_answer book.now sheet.now card.now)) result }
{
    let answer = factored_run::answer_of(
        card_input::test_of(card),
        book,
        sheet,
        None,
        shares,
        card_input::steps_used(card),
    );
    answer_line(name, sheet, card, answer)
}

// The line of a card with another tolerance.
fn tolerance_line(name: &[u8], sheet: &[u8], card: &[u8]) -> Text
    requires { (16 ≤ length sheet.now) × (36 ≤ length card.now) }
    ensures { Holds (tolerance_line name.now sheet.now card.now) result }
{
    let own = files::u32_at(card, card.len() - 28);
    counts(
        name,
        b" has the tolerance ",
        own as u64,
        b", sheet.wsh ",
        files::tolerance(sheet) as u64,
        b"\n",
    )
}

// The line of a card that is refused by its form, 31 to 36.
fn form_line(name: &[u8], book: &[u8], sheet: &[u8], card: &[u8], refusal: u32) -> Text
    requires card_value { check_refusal book.now sheet.now card.now 256 ≡ refusal }
    requires le_refusal { (31 ≤ refusal) × (refusal < 37) }
    ensures { Holds (form_line name.now book.now sheet.now card.now refusal) result }
{
    match refusal {
        31 => size_line(name, card),
        32 => said(name, b" does not end in WCD1 or WCD2\n"),
        33 => counts_line(name, book, card),
        34 => steps_line(name, sheet, card),
        35 => back_line(name, book, card),
        _ => {
            let count = card_input::pair_count(card);
            entries_line(
                name,
                card,
                card.len() - 36 - 4 * count,
                count,
                files::boats(book),
            )
        }
    }
}

// The line of a card of right form that is not true, 37 to 39.
fn truth_line(name: &[u8], book: &[u8], sheet: &[u8], card: &[u8], refusal: u32) -> Text
    requires card_value { check_refusal book.now sheet.now card.now 256 ≡ refusal }
    requires le_refusal { (37 ≤ refusal) × (refusal < 40) }
    ensures { Holds (truth_line name.now book.now sheet.now card.now refusal) result }
{
    if refusal == 39 {
        return tolerance_line(name, sheet, card);
    }
    let count = card_input::pair_count(card);
    let shares = card_pairs::shares_of(card, card.len() - 36 - 4 * count, count);
    if refusal == 37 {
        return total_line(name, book, card, shares);
    }
    numbers_line(name, book, sheet, card, shares)
}

// What is known of the refusal of a card by this number, in one line that starts with the name; no text for a number that is not of cards.
// The caller proves that the number refuses, so nothing is judged again.
pub fn known_card_detail(name: &[u8], book: &[u8], sheet: &[u8], card: &[u8], refusal: u32) -> Text
    requires { check_refusal book.now sheet.now card.now 256 ≡ refusal }
    ensures { Holds (card_detail name.now book.now sheet.now card.now refusal) result }
{
    match refusal {
        31..=36 => form_line(name, book, sheet, card, refusal),
        37..=39 => truth_line(name, book, sheet, card, refusal),
        _ => Text::empty(),
    }
}

// The number that refuses files and a card, or 0.
fn refusal_of(book: &[u8], sheet: &[u8], card: &[u8]) -> u32
    ensures { result ≡ check_refusal book.now sheet.now card.now 256 }
{
    let mut shares = [0u16; 256];
    match card::check_card(book, sheet, card, &mut shares) {
        Err(refusal) => refusal.number(),
        Ok(_) => 0,
    }
}

// ENTRY. What is known of a refusal of a card, in one line that starts with the first 100 bytes of the name of its file; no text where
// another number or none refuses it, or where the number is of the book or the sheet.
pub fn card_detail(name: &[u8], book: &[u8], sheet: &[u8], card: &[u8], refusal: u32) -> Text
    ensures { Holds (card_detail name.now book.now sheet.now card.now refusal) result }
{
    if refusal_of(book, sheet, card) != refusal {
        return Text::empty();
    }
    known_card_detail(name, book, sheet, card, refusal)
}
