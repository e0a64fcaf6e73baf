// The fleet book of the boats that may be used, put into a buffer.
//
// Helper for other crates, whose callers prove what it requires: put_book.
#![tactic(auto)]

ghost use Rattle.std.specs.Prelude.{◌≡◌, cond, [], ◌+◌, ◌≤◌, length};
ghost use Rattle.files.specs.Book.{rows, book_refusal};
ghost use Rattle.buffers.specs.Placed.{placed};
ghost use Rattle.book_output.specs.Output.{rows_bytes};
ghost use Rattle.method.specs.ReleasedBoats.{usable, kept};
ghost use Rattle.released_book.specs.Book.{released_book};

use method::Released;

// A row from `at` on where its boat may be used; gives back the offset after it, else `at`.
fn put_row(output: &mut [u8], at: usize, row: &[u8], used: bool) -> usize
    requires { at + length row.now ≤ length output.old }
    ensures value { result ≡ at + length (cond used row.now []) }
    ensures output_after { output.new ≡ placed output.old at (cond used row.now []) }
{
    if !used {
        return at;
    }
    buffers::put_bytes(output, at, row);
    at + row.len()
}

// The rows of the boats that may be used, from the buffer's first byte on; gives back the offset after them.
fn put_rows(output: &mut [u8], book: &[u8], set: Released) -> usize
    requires book_value { book_refusal book.now ≡ 0 }
    requires in_bounds { 32768 ≤ length output.old }
    ensures value { result ≡ length (rows_bytes (kept (usable set) 0 (rows book.now))) }
    ensures output_after { output.new ≡ placed output.old 0 (rows_bytes (kept (usable set) 0 (rows book.now))) }
{
    let boats = files::boats(book);
    let width = 2 * files::columns(book);
    let mut from = files::book_body(book);
    let mut at = 0;
    for i in 0..boats {
        let used = released_set::may_use(set, i);
        let end = from + width;
        at = put_row(output, at, &book[from..end], used);
        from = end;
    }
    at
}

// The fleet book of the boats that may be used, from the buffer's first byte on; gives back its length.
pub fn put_book(output: &mut [u8], book: &[u8], set: Released) -> usize
    requires book_value { book_refusal book.now ≡ 0 }
    requires in_bounds { 32780 ≤ length output.old }
    ensures value { result ≡ length (released_book (usable set) book.now) }
    ensures output_after { output.new ≡ placed output.old 0 (released_book (usable set) book.now) }
{
    let back = put_rows(output, book, set);
    let count = released_set::count(set, 0, files::boats(book));
    book_output::put_book_trailer(output, back, count, files::columns(book));
    back + 12
}
