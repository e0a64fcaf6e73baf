// One fleet book from two, put into a buffer.
//
// Entry, which asks nothing of its caller: merge_books. Helper for other crates, whose callers prove what it requires: merge_known.
#![tactic(auto)]

ghost use Rattle.std.specs.Prelude.{◌≡◌, ◌+◌, ◌*◌, ◌≤◌, length, take};
ghost use Rattle.files.specs.Bytes.{values};
ghost use Rattle.files.specs.Book.{columns, rows_from, book_refusal};
ghost use Rattle.method.specs.Answers.{slots_after};
ghost use Rattle.buffers.specs.Placed.{placed};
ghost use Rattle.book_output.specs.Output.{rows_bytes};
ghost use Rattle.refusals.specs.Numbers.{refusal_number};
ghost use Rattle.merged_book.specs.Merging.{is_among, with_row, merged_rows, merged_book, merge_refusal, merging, as_merged};
ghost use Rattle.merged_book.specs.Promise.{MergeRight};
ghost use Rattle.merge_books.specs.Putting.{new_bytes};

use buffers::put_bytes;
use refusals::Refusal;

// The most boats of a book.
const MOST_BOATS: usize = 256;

// Whether a row equals one of the first `count` rows of so many columns, which stand one after the other.
fn is_among(rows: &[u8], count: usize, row: &[u8], columns: usize) -> bool
    requires count_bound { (count ≤ 256) × (columns ≤ 64) }
    requires row_len { length row.now ≡ 2 * columns }
    requires columns_in_bounds { 2 * (count * columns) ≤ length rows.now }
    ensures { result ≡ is_among (rows_from count columns rows.now) (values columns row.now) }
{
    let mut at = 0;
    for i in 0..count {
        let end = at + 2 * columns;
        if equal_bytes::is_same(&rows[at..end], row) {
            return true;
        }
        at = end;
    }
    false
}

// Puts a row behind the first `count` rows where it equals none of them; gives back how many there are then.
fn put_new(rows: &mut [u8], count: usize, row: &[u8], columns: usize) -> usize
    requires count_bound { (count ≤ 256) × (columns ≤ 64) }
    requires row_len { length row.now ≡ 2 * columns }
    requires in_bounds { 32896 ≤ length rows.old }
    ensures value { result ≡ length (with_row (rows_from count columns rows.old) (values columns row.now)) }
    ensures rows_after { rows.new ≡ placed rows.old (2 * (count * columns)) (new_bytes (rows_from count columns rows.old) columns row.now) }
{
    if is_among(rows, count, row, columns) {
        return count;
    }
    put_bytes(rows, 2 * (count * columns), row);
    count + 1
}

// The merged rows of two books of as many columns, from the buffer's first byte on: at most 257, one more than a book may have.
// Gives back how many.
fn put_rows(rows: &mut [u8], first: &[u8], second: &[u8]) -> usize
    requires first_value { (book_refusal first.now ≡ 0) × (book_refusal second.now ≡ 0) }
    requires first_value_2 { columns first.now ≡ columns second.now }
    requires in_bounds { 32896 ≤ length rows.old }
    ensures value { result ≡ length (take 257 (merged_rows first.now second.now)) }
    ensures rows_after { rows.new ≡ placed rows.old 0 (rows_bytes (take 257 (merged_rows first.now second.now))) }
{
    let columns = files::columns(first);
    let mut count = files::boats(first);
    let body = files::book_body(first);
    let body_end = body + 2 * (count * columns);
    put_bytes(rows, 0, &first[body..body_end]);
    let boats = files::boats(second);
    let mut at = files::book_body(second);
    for i in 0..boats {
        if MOST_BOATS < count {
            return count;
        }
        let end = at + 2 * columns;
        count = put_new(rows, count, &second[at..end], columns);
        at = end;
    }
    count
}

// `merge_books` for a caller who has judged the first book and hands in what came of it: it is not judged again.
pub fn merge_known(
    first: &[u8],
    second: &[u8],
    output: &mut [u8],
    of_first: Result<(), Refusal>,
) -> Result<usize, Refusal>
    requires { refusal_number of_first ≡ book_refusal first.now }
    ensures value { as_merged result ≡ merging (merge_refusal first.now second.now (length output.old)) (length (merged_book first.now second.now)) }
    ensures output_after { output.new ≡ slots_after (merge_refusal first.now second.now (length output.old)) (merged_book first.now second.now) output.old }
    ensures merge_right { MergeRight first.now second.now (as_merged result) output.new }
{
    of_first?;
    validation::book_refusal(second)?;
    let columns = files::columns(first);
    if columns != files::columns(second) {
        return Err(Refusal::MergedColumns);
    }
    let mut rows = [0u8; 32896];
    let boats = put_rows(&mut rows, first, second);
    if MOST_BOATS < boats {
        return Err(Refusal::MergedBoats);
    }
    let back = 2 * (boats * columns);
    if output.len() < back + 12 {
        return Err(Refusal::MergedRoom);
    }
    put_bytes(output, 0, &rows[..back]);
    book_output::put_book_trailer(output, back, boats, columns);
    Ok(back + 12)
}

// ENTRY. One fleet book from two, written to the first bytes of `output` without front text: the first book's rows, then each row of the
// second that equals no row before it. Refuses the first book, then the second (1 to 6), then columns that differ (55), more than 256
// boats (56) and a buffer shorter than the merged book (57), and leaves the buffer as it was; else gives the merged book's length. Later
// bytes are as they were. The third clause says what holds of the rows and of every mixture of them (MergeRight).
pub fn merge_books(first: &[u8], second: &[u8], output: &mut [u8]) -> Result<usize, Refusal>
    ensures value { as_merged result ≡ merging (merge_refusal first.now second.now (length output.old)) (length (merged_book first.now second.now)) }
    ensures output_after { output.new ≡ slots_after (merge_refusal first.now second.now (length output.old)) (merged_book first.now second.now) output.old }
    ensures merge_right { MergeRight first.now second.now (as_merged result) output.new }
{
    merge_known(first, second, output, validation::book_refusal(first))
}
