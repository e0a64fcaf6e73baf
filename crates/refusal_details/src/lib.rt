// What is known of a refusal of a fleet book or a sheet, in one line for standard error: the boat and column of the first value out of
// range, or both numbers of columns.
//
// The entry, which asks nothing of its caller: detail. Helper for other crates, whose callers prove what it requires: known_detail.
#![tactic(auto)]

ghost use Rattle.std.specs.Prelude.{◌≡◌, ◌+◌, ◌*◌, ◌≤◌, ◌<◌, length, drop};
ghost use Rattle.files.specs.Limits.{file_limit};
ghost use Rattle.files.specs.Bytes.{value, values};
ghost use Rattle.files.specs.Book.{columns, BookWhole, book_refusal};
ghost use Rattle.files.specs.Sheet.{sheet_refusal, files_refusal};
ghost use Rattle.files.specs.Sheet as Sheets;
ghost use Rattle.text.specs.Texts.{text_limit, Holds, Adds};
ghost use Rattle.csv_fleet_round_trip.specs.Writing.{figures};
ghost use Rattle.csv_cells.specs.Cells.{cell_text};
ghost use Rattle.refusal_details.specs.Details.{first_boat, names_all, names_csv, called, first_out, out_words, book_values, value_line, target_line, columns_line, detail};

use text::Text;

// How many values of `count` from `at` are in range before the first that is out. From -2,000 the values in range count 0 to 4,000.
fn first_out(b: &[u8], at: usize, count: usize) -> usize
    requires { at + 2 * count ≤ length b.now }
    ensures { result ≡ first_out (values count (drop at b.now)) }
{
    for i in 0..count {
        if 4000 < (files::u16_at(b, at + 2 * i) + 2000) % 65536 {
            return i;
        }
    }
    count
}

// The text followed by what is wrong with a value, which 16 bits hold.
fn with_out(text: Text, v: u32) -> Text
    requires len_bound { text.len + 60 ≤ text_limit }
    requires v_bound { v < 65536 }
    ensures { Adds text (out_words (value v)) result }
{
    let begun = text.with_bytes(b": ");
    let told = with_figures(begun, v);
    let ranged = told.with_bytes(b" is not from -2000 to 2000");
    ranged.with_bytes(b"\n")
}

// The text followed by a value, which 16 bits hold.
fn with_figures(text: Text, v: u32) -> Text
    requires len_bound { text.len + 21 ≤ text_limit }
    requires v_bound { v < 65536 }
    ensures adds { Adds text (figures (value v)) result }
    ensures len_bound_2 { result.len ≤ text.len + 21 }
{
    if v < 32768 {
        return text.with_number(v as u64);
    }
    let below = text.with_bytes(b"-");
    below.with_number((65536 - v) as u64)
}

// The text followed by the name in a cell of a CSV, or by a word and a number where there is none.
fn with_called(text: Text, csv: &[u8], row: usize, field: usize, word: &[u8], k: usize) -> Text
    requires len_bound { text.len + 240 ≤ text_limit }
    requires csv_len_bound { length csv.now ≤ 200000 }
    requires word_len_bound { length word.now ≤ 10 }
    requires k_bound { k < 65536 }
    ensures adds { Adds text (called word.now k (cell_text row field csv.now)) result }
    ensures len_bound_2 { result.len ≤ text.len + 240 }
{
    let mut name = [0u8; 200];
    let n = csv_cells::put_cell(csv, row, field, &mut name);
    if n == 0 {
        let begun = text.with_bytes(b", ");
        let told = begun.with_bytes(word);
        return told.with_number(k as u64 + 1);
    }
    message_parts::with_part(text, &name[..n])
}

// The row of the first boat in a CSV: the second, or the third where the second has units.
fn first_boat(csv: &[u8]) -> usize
    requires { length csv.now ≤ 200000 }
    ensures value { result ≡ first_boat csv.now }
    ensures upper_bound { result ≤ 2 }
{
    let mut word = [0u8; 200];
    let n = csv_cells::put_cell(csv, 1, 0, &mut word);
    if n != 4 {
        return 1;
    }
    if files::ends_with(&word[..n], b"unit") {
        2
    } else {
        1
    }
}

// Whether a text is a CSV without a fault with a row for each boat and a name for each column.
fn names_all(csv: &[u8], boats: usize, columns: usize) -> bool
    requires csv_len_bound { length csv.now ≤ 200000 }
    requires boats_bound { boats < 65536 }
    requires columns_bound { columns < 65536 }
    ensures { result ≡ names_all csv.now boats columns }
{
    let place = csv_cells::last_place(csv);
    if place.fault.is_some() {
        return false;
    }
    if place.row != first_boat(csv) + boats {
        return false;
    }
    csv_cells::width(csv, 0) == columns + 1
}

// The CSV in front of a book, nothing where the text there is none or names others.
fn names_csv(book: &[u8]) -> &[u8]
    requires book_whole { BookWhole book.now }
    requires book_len_bound { length book.now ≤ file_limit }
    requires bound { 1 ≤ columns book.now }
    ensures { result.now ≡ names_csv book.now }
{
    let end = files::book_body(book);
    let none = 0;
    if names_all(&book[..end], files::boats(book), files::columns(book)) {
        return &book[..end];
    }
    &book[..none]
}

// The line of a book's first value out of range.
fn value_line(book: &[u8]) -> Text
    requires { book_refusal book.now ≡ 6 }
    ensures { Holds (value_line (first_out (book_values book.now)) book.now) result }
{
    let at = files::book_body(book);
    let columns = files::columns(book);
    let front = names_csv(book);
    let k = first_out(book, at, files::boats(book) * columns);
    let i = k / columns;
    let j = k % columns;
    let begun = Text::empty().with_bytes(b"fleet.wbk");
    let row = first_boat(front) + i;
    let boat = with_called(begun, front, row, 0, b"boat ", i);
    let column = with_called(boat, front, 0, j + 1, b"column ", j);
    with_out(column, files::u16_at(book, at + 2 * k))
}

// The line of a sheet's first value out of range, with the column's name from the book.
fn target_line(book: &[u8], sheet: &[u8]) -> Text
    requires book_value { book_refusal book.now ≡ 0 }
    requires sheet_value { sheet_refusal (columns book.now) sheet.now ≡ 17 }
    ensures { Holds (target_line (first_out (Sheets.sheet sheet.now).target) book.now sheet.now) result }
{
    let front = names_csv(book);
    let at = files::sheet_body(sheet);
    let k = first_out(sheet, at, files::sheet_columns(sheet) as usize);
    let begun = Text::empty().with_bytes(b"sheet.wsh");
    let column = with_called(begun, front, 0, k + 1, b"column ", k);
    with_out(column, files::u16_at(sheet, at + 2 * k))
}

// The line of a sheet with another number of columns.
fn columns_line(book: &[u8], sheet: &[u8]) -> Text
    requires in_bounds { 12 ≤ length book.now }
    requires in_bounds_2 { 16 ≤ length sheet.now }
    ensures { Holds (columns_line book.now sheet.now) result }
{
    let begun = Text::empty().with_bytes(b"sheet.wsh has ");
    let counted = begun.with_number(files::sheet_columns(sheet) as u64);
    let told = counted.with_bytes(b" columns, fleet.wbk ");
    let both = told.with_number(files::columns(book) as u64);
    both.with_bytes(b"\n")
}

// What is known of the refusal of a book and a sheet by this number, in one line; no text where nothing more is known. The caller proves
// that the number is theirs, so the files are not judged again.
pub fn known_detail(book: &[u8], sheet: &[u8], refusal: u32) -> Text
    requires { files_refusal book.now sheet.now ≡ refusal }
    ensures { Holds (detail book.now sheet.now refusal) result }
{
    match refusal {
        6 => value_line(book),
        13 => columns_line(book, sheet),
        17 => target_line(book, sheet),
        _ => Text::empty(),
    }
}

// ENTRY. What is known of a refusal of a book and a sheet, in one line; no text where another number or none refuses them, or nothing more
// is known.
pub fn detail(book: &[u8], sheet: &[u8], refusal: u32) -> Text
    ensures { Holds (detail book.now sheet.now refusal) result }
{
    let Err(reason) = validation::files_refusal(book, sheet) else {
        return Text::empty();
    };
    if reason.number() != refusal {
        return Text::empty();
    }
    known_detail(book, sheet, refusal)
}
