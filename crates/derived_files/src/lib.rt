// A fleet book and a sheet with each column as often as its factor says, put into a buffer: a search with these factors is a plain search on them.
//
// Helpers for other crates, whose callers prove what they require: put_book, put_sheet.
#![tactic(auto)]

ghost use Rattle.std.specs.Prelude.{◌≡◌, ◌+◌, ◌*◌, ◌≤◌, ◌<◌, length, replicate};
ghost use Rattle.frank_wolfe.specs.Vectors.{sum};
ghost use Rattle.files.specs.Book.{columns, book_refusal};
ghost use Rattle.files.specs.Fits.{SheetFits};
ghost use Rattle.buffers.specs.Placed.{placed};
ghost use Rattle.derived_files.specs.Derived.{derived_book, derived_sheet};
ghost use Rattle.derived_files.specs.Places.{places, cells, picked_rows_bytes, Inside, Below};

// A byte as an index.
fn index(x: u8) -> usize
    ensures { result ≡ x }
{
    x as usize
}

// A column's number `times` times from `at` on; gives back the offset after them.
fn put_column(list: &mut [u8], at: usize, times: usize, column: usize) -> usize
    requires times_in_bounds { at + times ≤ length list.old }
    requires column_bound { column < 64 }
    ensures value { result ≡ at + times }
    ensures list_after { list.new ≡ placed list.old at (replicate times column) }
{
    let end = at + times;
    list[at..end].fill(column as u8);
    end
}

// The columns of a derived file by number, from the list's first byte on; gives back how many.
fn put_places(list: &mut [u8], factors: &[u8]) -> usize
    requires factors_len_bound { length factors.now ≤ 64 }
    requires factors_in_bounds { sum factors.now ≤ length list.old }
    ensures value { result ≡ sum factors.now }
    ensures list_after { list.new ≡ placed list.old 0 (places 0 factors.now) }
{
    let mut at = 0;
    for (j, factor) in factors.iter().enumerate() {
        at = put_column(list, at, index(*factor), j);
    }
    at
}

// These columns of the row at `from`, from `at` on.
fn copy_row(output: &mut [u8], at: usize, bytes: &[u8], from: usize, places: &[u8])
    requires places_in_bounds { at + 2 * length places.now ≤ length output.old }
    requires inside { Inside bytes.now from places.now }
    ensures { output.new ≡ placed output.old at (cells bytes.now from places.now) }
{
    for (k, place) in places.iter().enumerate() {
        let cell = from + 2 * index(*place);
        let low = bytes[cell];
        let high = bytes[cell + 1];
        output[at + 2 * k] = low;
        output[at + 2 * k + 1] = high;
    }
}

// These columns of all rows of a book, from the buffer's first byte on.
fn put_rows(output: &mut [u8], book: &[u8], places: &[u8])
    requires book_value { book_refusal book.now ≡ 0 }
    requires places_len_bound { length places.now ≤ 64 }
    requires below { Below (columns book.now) places.now }
    requires in_bounds { 32768 ≤ length output.old }
    ensures { output.new ≡ placed output.old 0 (picked_rows_bytes places.now book.now) }
{
    let boats = files::boats(book);
    let columns = files::columns(book);
    let body = files::book_body(book);
    for i in 0..boats {
        copy_row(
            output,
            2 * (i * places.len()),
            book,
            body + 2 * (i * columns),
            places,
        );
    }
}

// The derived fleet book, from the buffer's first byte on; gives back its length.
pub fn put_book(output: &mut [u8], book: &[u8], factors: &[u8]) -> usize
    requires book_value { book_refusal book.now ≡ 0 }
    requires factors_len { length factors.now ≡ columns book.now }
    requires factors_bound { sum factors.now ≤ 64 }
    requires in_bounds { 32780 ≤ length output.old }
    ensures value { result ≡ length (derived_book factors.now book.now) }
    ensures output_after { output.new ≡ placed output.old 0 (derived_book factors.now book.now) }
{
    let boats = files::boats(book);
    let mut list = [0u8; 64];
    let count = put_places(&mut list, factors);
    put_rows(output, book, &list[..count]);
    let at = 2 * (boats * count);
    book_output::put_book_trailer(output, at, boats, count);
    at + 12
}

// The sheet for it, from the buffer's first byte on; gives back its length.
pub fn put_sheet(output: &mut [u8], sheet: &[u8], factors: &[u8]) -> usize
    requires sheet_fits { SheetFits (length factors.now) sheet.now }
    requires factors_len_bound { length factors.now ≤ 64 }
    requires factors_bound { sum factors.now ≤ 64 }
    requires in_bounds { 144 ≤ length output.old }
    ensures value { result ≡ length (derived_sheet factors.now sheet.now) }
    ensures output_after { output.new ≡ placed output.old 0 (derived_sheet factors.now sheet.now) }
{
    let from = files::sheet_body(sheet);
    let steps = files::steps(sheet);
    let tolerance = files::tolerance(sheet);
    let mut list = [0u8; 64];
    let count = put_places(&mut list, factors);
    copy_row(output, 0, sheet, from, &list[..count]);
    let at = 2 * count;
    sheet_output::put_sheet_trailer(output, at, count, steps, tolerance);
    at + 16
}
