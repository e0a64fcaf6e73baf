// The queue of sheets for C: the function of exported_queue under its C name, with the same contract.
//
// Export, which asks nothing of its caller: dofitrano_run_queue.
// A slice passes as a pointer and a length; include/dofitrano.h declares the functions and says what a caller in another language must see to.
#![tactic(auto)]

ghost use Rattle.std.specs.Prelude.{◌≡◌, length};
ghost use Rattle.sheet_queue.specs.Queue.{lengths, queue_refusal, records_after, queue_slots_after};
ghost use Rattle.sheet_queue.specs.Promise.{QueueRight};

use sheet_queue::SheetRecord;

// The sheets of a queue, which stand back to back in one buffer, run on one allowance of steps: in each round every unfinished sheet,
// in queue order, takes one step, until all have a verdict or the allowance is gone. Refuses the book (1 to 6), sheets that are not 1 to 16
// or whose lengths do not total the buffer (44), an allowance below the number of sheets or above 5,760 (45), then the sheets one after the
// other (11 to 17, 46), and fewer than 256 slots a sheet (21), and leaves every record and slot as it was; else gives 0, writes each record
// but its length, and fills the first of each sheet's 256 slots with its shares, one a boat. The clause gives the number, the records and
// the slots, and says what holds of them (QueueRight).
#[unsafe(no_mangle)]
pub extern "C" fn dofitrano_run_queue(
    queue: &mut [SheetRecord],
    book: &[u8],
    sheets: &[u8],
    allowance: u32,
    shares: &mut [u16],
) -> u32
    ensures { (result ≡ queue_refusal book.now (lengths queue.old) sheets.now allowance (length shares.old)) × (queue.new ≡ records_after result book.now sheets.now allowance queue.old) × (shares.new ≡ queue_slots_after result book.now sheets.now allowance queue.old shares.old) × QueueRight book.now sheets.now allowance queue.old shares.old result queue.new shares.new }
{
    exported_queue::dofitrano_run_queue(queue, book, sheets, allowance, shares)
}
