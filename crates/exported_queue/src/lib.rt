// The queue of sheets as a lent list of records, for programs in other languages: thin functions over the list, which call others on plain
// numbers. exported_queue_c exports the entry for C.
//
// Entry, which asks nothing of its caller: dofitrano_run_queue. A slice passes as a pointer and a length; include/dofitrano.h declares the
// function for C and says what a caller in another language must see to.
#![tactic(auto)]

ghost use Rattle.std.specs.Prelude.{◌≡◌, ◌≤◌, ◌<◌, length};
ghost use Rattle.sheet_queue.specs.Queue.{lengths, queue_refusal, records_after, queue_slots_after};
ghost use Rattle.sheet_queue.specs.Promise.{QueueRight};
ghost use Rattle.std.specs.Prelude.{Ok};
ghost use Rattle.queue_rounds.specs.Outcomes.{outcome};
ghost use Rattle.queue_rounds.specs.Work.{Ran};
ghost use Rattle.exported_queue.specs.Lists.{no_lengths, with_length, lengths_to, plan_of, stored};

use queue_rounds::{Plan, Refused, Served};
use sheet_queue::SheetRecord;

// The lengths of the first 16 sheets of a queue.
#[derive(Clone, Copy)]
pub struct Lengths {
    pub at: [u32; 16],
}

// No length yet.
fn no_lengths() -> Lengths
    ensures { result ≡ no_lengths }
{
    Lengths { at: [0u32; 16] }
}

// Record k's length among the first 16.
fn with_length(mut lengths: Lengths, k: usize, record: SheetRecord) -> Lengths
    ensures { result ≡ with_length lengths k «record» }
{
    if k < 16 {
        lengths.at[k] = record.length;
    }
    lengths
}

// The lengths of a queue's first 16 sheets.
fn lengths_of(queue: &[SheetRecord]) -> Lengths
    ensures { result ≡ lengths_to queue.now (length queue.now) }
{
    let mut lengths = no_lengths();
    for (i, record) in queue.iter().enumerate() {
        lengths = with_length(lengths, i, *record);
    }
    lengths
}

// The queue of so many sheets of these lengths, on plain numbers.
fn run_lengths(
    lengths: Lengths,
    count: usize,
    book: &[u8],
    sheets: &[u8],
    allowance: u32,
    shares: &mut [u16],
) -> Result<Served, Refused>
    ensures { Ran book.now (plan_of lengths count) sheets.now allowance shares.old (outcome result) shares.new }
{
    let at = lengths.at;
    let plan = Plan { count, lengths: at };
    queue_rounds::run_plan(plan, book, sheets, allowance, shares)
}

// The first records of a queue as those that were served.
fn store(queue: &mut [SheetRecord], served: Served, count: usize)
    requires { (count ≤ length queue.old) × (count ≤ 16) }
    ensures { queue.new ≡ stored queue.old (outcome (Ok served)) count }
{
    for i in 0..count {
        queue[i] = queue_rounds::record_at(served, i);
    }
}

// ENTRY. The sheets of a queue, which stand back to back in one buffer, run on one allowance of steps: in each round every unfinished sheet,
// in queue order, takes one step, until all have a verdict or the allowance is gone. Refuses the book (1 to 6), sheets that are not 1 to 16
// or whose lengths do not total the buffer (44), an allowance below the number of sheets or above 5,760 (45), then the sheets one after the
// other (11 to 17, 46), and fewer than 256 slots a sheet (21), and leaves every record and slot as it was; else gives 0, writes each record
// but its length, and fills the first of each sheet's 256 slots with its shares, one a boat. The clause gives the number, the records and
// the slots, and says what holds of them (QueueRight).
pub fn dofitrano_run_queue(
    queue: &mut [SheetRecord],
    book: &[u8],
    sheets: &[u8],
    allowance: u32,
    shares: &mut [u16],
) -> u32
    ensures { (result ≡ queue_refusal book.now (lengths queue.old) sheets.now allowance (length shares.old)) × (queue.new ≡ records_after result book.now sheets.now allowance queue.old) × (shares.new ≡ queue_slots_after result book.now sheets.now allowance queue.old shares.old) × QueueRight book.now sheets.now allowance queue.old shares.old result queue.new shares.new }
{
    let lengths = lengths_of(queue);
    let count = queue.len();
    match run_lengths(lengths, count, book, sheets, allowance, shares) {
        Ok(served) => {
            store(queue, served, served.count);
            0
        }
        Err(refused) => refused.reason.number(),
    }
}
