// Sheets converted into their other edition and back, by hand and drawn, with the searches of both, and mixedition in one folder after
// another. The cases and folders are made by tests/make_data.py, the expected output by tests/expected/test_rewriting.py.
#![tactic(auto)]

use editions::Edition;
use refusals::Refusal;
use test_buffers::{between, u16_at};

// Prints the line of a conversion; gives back how many bytes it wrote.
fn size_of(rt: &HostRuntime, given: Result<Edition, Refusal>) -> usize {
    file_io::print(
        rt,
        edition_text::edition_line(given.map_err(|refusal| refusal.number())),
    );
    match given {
        Ok(e) => e.size,
        Err(_) => 0,
    }
}

// Converts a sheet into the first `room` bytes of a buffer, all of them where it has fewer; prints the line, and gives back how many bytes
// were written.
fn rewritten(rt: &HostRuntime, sheet: &[u8], buffer: &mut [u8], room: usize) -> usize {
    if buffer.len() < room {
        return size_of(rt, other_edition::other_edition(sheet, buffer));
    }
    size_of(rt, other_edition::other_edition(sheet, &mut buffer[..room]))
}

// Converts a sheet into an output of `room` bytes and back into one of 50,000, and prints what is known of a refusal and a sum over each
// buffer, whose bytes past the output and the result were 7. Then the listings of the search with both sheets, where there is a book.
fn converted(rt: &HostRuntime, sheet: &[u8], book: &[u8], room: usize) {
    let mut output = [7u8; 50000];
    let mut back = [7u8; 50000];
    let size = rewritten(rt, sheet, &mut output, room);
    file_io::print(rt, edition_text::edition_detail(sheet));
    test_printing::line(rt, b"sum", test_buffers::checksum(&output));
    if size == 0 {
        return;
    }
    let other = between(&output, 0, size);
    rewritten(rt, other, &mut back, 50000);
    test_printing::line(rt, b"sum", test_buffers::checksum(&back));
    if book.len() == 0 {
        return;
    }
    file_io::print(rt, search_listing::search_listing(book, sheet).text);
    file_io::print(rt, search_listing::search_listing(book, other).text);
}

// The case at `start`: how many zeros stand in front of the sheet, and the room, 2 bytes each; then the name, the sheet and the book, each
// behind 2 bytes of length. Gives back where the next case starts.
fn case(rt: &HostRuntime, cases: &[u8], start: usize) -> usize {
    let at = start % 1000000;
    let name = at + 6;
    let before = name + u16_at(cases, at + 4) as usize;
    let own = before + 2;
    let middle = own + u16_at(cases, before) as usize;
    let book = middle + 2;
    let end = book + u16_at(cases, middle) as usize;
    let mut sheet = [0u8; 50000];
    let front = u16_at(cases, at) as usize;
    let n = test_buffers::put_bytes(&mut sheet, front, between(cases, own, middle));
    test_printing::title(rt, between(cases, name, before));
    converted(
        rt,
        between(&sheet, 0, n),
        between(cases, book, end),
        u16_at(cases, at + 2) as usize,
    );
    end
}

// mixedition in a folder, and the sheet that stands there afterwards.
fn folder(rt: &HostRuntime, name: &[u8]) {
    let mut left = [0u8; 40001];
    test_printing::title(rt, name);
    edition_folder::file_other(rt, name);
    let n = file_io::read_in(rt, name, b"other.wsh", &mut left);
    test_printing::line(rt, b"bytes", n as u64);
    test_printing::line(rt, b"sum", test_buffers::checksum(&left[..n]));
}

// All of it.
fn run(rt: &HostRuntime, cases: &[u8]) {
    test_cases::each(rt, cases, 236, case);
    folder(rt, b"");
    folder(rt, b"down");
    folder(rt, b"front");
    folder(rt, b"longest");
    folder(rt, b"too_long");
    folder(rt, b"factor");
    folder(rt, b"columns");
    folder(rt, b"no_steps");
    folder(rt, b"taken");
    folder(rt, b"none");
}

fn main(rt: HostRuntime) {
    test_cases::with_file::<17000, _>(&rt, b"cases.dat", run);
}
