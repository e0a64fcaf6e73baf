// The lines of a queue of sheets on one allowance of steps.
//
// Entry, which asks nothing of its caller: queue_text.
#![tactic(auto)]

ghost use Rattle.std.specs.Prelude.{◌≡◌, suc, ◌+◌, ◌≤◌, ◌<◌, length, take};
ghost use Rattle.text.specs.Texts.{text_limit, Holds, Adds};
ghost use Rattle.queue_listing.specs.Lines.{named, verdict_words, sheet_line, sheet_lines, listing_refusal, listing_accepted, queue_listing, ListedRight};
ghost use Rattle.queue_listing.specs.Plans.{Plans};
ghost use Rattle.queue_rounds.specs.Outcomes.{judged_number, judged_accepted};

use queue_rounds::{Plan, Refused, Served};
use sheet_queue::SheetRecord;
use text::Text;

// ---- Lines

// The text followed by a word and a number.
fn with_named(text: Text, word: &[u8], n: u64) -> Text
    requires { text.len + length word.now + 20 ≤ text_limit }
    ensures adds { Adds text (named word.now n) result }
    ensures len_bound { result.len ≤ text.len + length word.now + 20 }
{
    text.with_bytes(word).with_number(n)
}

// The text followed by a sheet's verdict and E.
fn with_verdict(text: Text, verdict: u32, finished: bool, distance: u64) -> Text
    requires { text.len + 31 ≤ text_limit }
    ensures adds { Adds text (named (verdict_words verdict finished) distance) result }
    ensures len_bound { result.len ≤ text.len + 31 }
{
    if verdict == 1 {
        return with_named(text, b" within ", distance);
    }
    if verdict == 2 {
        return with_named(text, b" beyond ", distance);
    }
    if finished {
        return with_named(text, b" spent ", distance);
    }
    with_named(text, b" spent cut ", distance)
}

// The text followed by the line of the sheet behind `before` others.
fn with_sheet(text: Text, before: usize, record: SheetRecord) -> Text
    requires { (before < 16) × (text.len + 121 ≤ text_limit) }
    ensures adds { Adds text (sheet_line (suc before) «record») result }
    ensures len_bound { result.len ≤ text.len + 121 }
{
    let asked = record.asked as u64;
    let used = record.used as u64;
    let verdict = record.verdict;
    let finished = record.finished;
    let distance = record.distance;
    let gap = record.gap;
    let numbered = with_named(text, b"sheet ", (before + 1) as u64);
    let first = with_named(numbered, b" ", asked);
    let second = with_named(first, b" ", used);
    let third = with_verdict(second, verdict, finished, distance);
    let fourth = with_named(third, b" ", gap);
    fourth.with_bytes(b"\n")
}

// The lines of a queue's records.
fn lines(served: Served) -> Text
    requires { (served.count ≤ 16) × (length served.records ≡ 16) }
    ensures { Holds (sheet_lines 0 (take served.count served.records)) result }
{
    let count = served.count;
    let mut longer = Text::empty();
    for i in 0..count {
        longer = with_sheet(longer, i, queue_rounds::record_at(served, i));
    }
    longer
}

// ---- The listing

// The sheets of these lengths; where there are more than 16 the lengths do not matter.
fn plan_of(lengths: &[u32]) -> Plan
    ensures { Plans lengths.now result }
{
    let count = lengths.len();
    let mut first = [0u32; 16];
    if sheet_queue::MOST_SHEETS < count {
        return Plan {
            count,
            lengths: first,
        };
    }
    first[..count].copy_from_slice(lengths);
    Plan {
        count,
        lengths: first,
    }
}

// The listing of a queue, and what refuses it, with how many of its sheets are accepted ahead of the one that refuses it: 0 where something
// ahead of the sheets does.
#[derive(Clone, Copy)]
pub struct Listed {
    pub queue: Result<(), Refused>,
    pub text: Text,
}

// ENTRY. The queue of sheets of these lengths, which stand back to back in one buffer, on one allowance of steps: a line a sheet, or the
// number that refuses it, as `dofitrano_run_queue` runs and refuses it. The last clause says of what is listed all that this entry promises.
pub fn queue_text(book: &[u8], lengths: &[u32], sheets: &[u8], allowance: u32) -> Listed
    ensures refusal_value { judged_number result.queue ≡ listing_refusal book.now lengths.now sheets.now allowance }
    ensures accepted_value { judged_accepted (length lengths.now) result.queue ≡ listing_accepted book.now lengths.now sheets.now allowance }
    ensures holds { Holds (queue_listing book.now lengths.now sheets.now allowance) result.text }
    ensures listed_right { ListedRight book.now lengths.now sheets.now allowance }
{
    let mut shares = [0u16; 4096];
    let plan = plan_of(lengths);
    match queue_rounds::run_plan(plan, book, sheets, allowance, &mut shares) {
        Ok(served) => {
            let text = lines(served);
            Listed {
                queue: Ok(()),
                text,
            }
        }
        Err(refused) => {
            let text = listing::reason_listing(refused.reason);
            Listed {
                queue: Err(refused),
                text,
            }
        }
    }
}
