// The work of mixqueue, in a folder that the caller names. What the system reads no contract can say; what is made of it is the listing of the
// book and of the sheets that were read. test_queue holds what is printed to the reference.
#![tactic(auto)]

ghost use Rattle.std.specs.Prelude.{◌≡◌, ◌+◌, ◌≤◌, ◌<◌, length};
ghost use Rattle.queue_folder.specs.Folder.{sheet_bytes, most_read, ReadBehind, SomeSheets, SomeQueue};

use numbered_files::{name_of, tell_of};
use queue_rounds::Refused;
use refusals::Refusal;
use text::Text;

// The bytes that are read of a sheet: one more than it may have, so that a longer file is refused and not cut.
const SHEET_BYTES: usize = 40001;

// The most sheets that are read: one more than a queue may have.
const MOST_READ: usize = 17;

// Sheets that were read back to back into a buffer: their bytes, and the length of each.
#[derive(Clone, Copy)]
pub struct Sheets {
    pub len: usize,
    pub lengths: [u32; MOST_READ],
}

// Reads the sheet behind `before` others into a buffer from `at` on.
fn read_sheet(rt: &HostRuntime, folder: &[u8], before: usize, at: usize, buffer: &mut [u8]) -> usize
    requires { (before < most_read) × (at + sheet_bytes ≤ length buffer.old) }
    ensures { ReadBehind at buffer.old result buffer.new }
{
    let end = at + SHEET_BYTES;
    let name = name_of(b"sheet", before, b".wsh");
    numbered_files::read_named(rt, folder, name, &mut buffer[at..end])
}

// Reads so many sheets, back to back.
fn read_sheets(rt: &HostRuntime, folder: &[u8], count: usize, buffer: &mut [u8]) -> Sheets
    requires { (count ≤ most_read) × (680017 ≤ length buffer.old) }
    ensures some_sheets { SomeSheets count result buffer.new }
    ensures buffer_len_unchanged { length buffer.new ≡ length buffer.old }
{
    let mut lengths = [0u32; MOST_READ];
    let mut at = 0;
    for k in 0..count {
        let n = read_sheet(rt, folder, k, at, buffer);
        lengths[k] = n as u32;
        at += n;
    }
    Sheets { len: at, lengths }
}

// Says what is wrong with the sheet behind `before` others.
fn tell_sheet(rt: &HostRuntime, folder: &[u8], before: usize, fault: &[u8])
    requires { before ≤ most_read }
{
    tell_of(rt, folder, name_of(b"sheet", before, b".wsh"), fault);
}

// Says that the book is refused.
fn tell_book(rt: &HostRuntime, folder: &[u8]) {
    let name = Text::empty().with_bytes(b"fleet.wbk");
    tell_of(rt, folder, name, b": this book is refused\n");
}

// Names what is refused: of the sheets the one behind those that are accepted.
fn tell_refused(rt: &HostRuntime, folder: &[u8], count: usize, refused: Refused)
    requires { refused.accepted ≤ most_read }
{
    match refused.reason {
        Refusal::BookLength
        | Refusal::BookLetters
        | Refusal::BookBoats
        | Refusal::BookColumns
        | Refusal::BookBack
        | Refusal::BookValue => tell_book(rt, folder),
        Refusal::QueueAllowance => file_io::tell(
            rt,
            b"ALLOWANCE",
            b": not from the number of sheets to 5760\n",
        ),
        Refusal::QueueSheets => {
            if count == 0 {
                tell_sheet(rt, folder, 0, b": could not be opened\n");
                return;
            }
            tell_sheet(
                rt,
                folder,
                sheet_queue::MOST_SHEETS,
                b": there are more than 16 sheets\n",
            );
        }
        _ => tell_sheet(rt, folder, refused.accepted, b": this sheet is refused\n"),
    }
}

// The listing of a book and of the first sheets of a folder, which are read into this buffer, on an allowance.
fn queue_in(
    rt: &HostRuntime,
    folder: &[u8],
    book: &[u8],
    count: usize,
    allowance: u32,
    buffer: &mut [u8],
) -> Text
    requires { (count ≤ most_read) × (680017 ≤ length buffer.old) }
    ensures { SomeQueue book.now count allowance result }
{
    let read = read_sheets(rt, folder, count, buffer);
    let sheets = file_io::first_bytes(buffer, read.len);
    let lengths = read.lengths;
    let listed = queue_listing::queue_text(book, &lengths[..count], sheets, allowance);
    if let Err(refused) = listed.queue {
        tell_refused(rt, folder, count, refused);
    }
    listed.text
}

// The same with a buffer that serves any sheets: only this function sees its size.
fn queue_of(rt: &HostRuntime, folder: &[u8], book: &[u8], count: usize, allowance: u32) -> Text
    requires { count ≤ most_read }
    ensures { SomeQueue book.now count allowance result }
{
    let mut buffer = [0u8; SHEET_BYTES * MOST_READ];
    queue_in(rt, folder, book, count, allowance, &mut buffer)
}

// Runs sheet1.wsh, sheet2.wsh and so on of a folder, up to one that cannot be opened, against fleet.wbk on one allowance of steps, and prints
// a line a sheet. The current folder has no name. Standard error names what is refused.
pub fn list_queue(rt: &HostRuntime, folder: &[u8], allowance: u32) {
    let mut book = [0u8; 40001];
    let n = file_io::read_in(rt, folder, b"fleet.wbk", &mut book);
    let count = numbered_files::count_in(rt, folder, b"sheet", b".wsh", MOST_READ);
    file_io::print(rt, queue_of(rt, folder, &book[..n], count, allowance));
}
