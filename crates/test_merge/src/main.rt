// One fleet book from two, for pairs written by hand and drawn, and mixmerge in one folder after another. The cases and folders are made
// by tests/merges.py, the expected output by tests/expected/test_merge.py.
#![tactic(auto)]

use refusals::Refusal;
use test_buffers::{between, u16_at};

// One book from two in the first `room` bytes of a buffer, all of them where it has fewer.
fn merged_within(
    first: &[u8],
    second: &[u8],
    output: &mut [u8],
    room: usize,
) -> Result<usize, Refusal> {
    if output.len() < room {
        return merge_books::merge_books(first, second, output);
    }
    merge_books::merge_books(first, second, &mut output[..room])
}

// Prints what is given back for two books and a buffer of `room` bytes, the number that refuses them, 0 for none, and how many bytes were
// written; and a sum of all bytes of a longer one.
fn merged(rt: &HostRuntime, first: &[u8], second: &[u8], room: usize) {
    let mut output = [7u8; merged_book::MOST_BYTES];
    let made = merged_within(first, second, &mut output, room);
    test_printing::line(rt, b"refused", test_printing::refusal_number(made));
    test_printing::line(rt, b"bytes", made.unwrap_or(0) as u64);
    test_printing::line(rt, b"sum", test_buffers::checksum(&output));
}

// The case at `start`: three numbers of 2 bytes each, then both books. Gives back where the next case starts.
fn case(rt: &HostRuntime, cases: &[u8], start: usize) -> usize {
    let at = start % 1000000;
    let first = at + 6;
    let second = first + u16_at(cases, at) as usize;
    let end = second + u16_at(cases, at + 2) as usize;
    merged(
        rt,
        between(cases, first, second),
        between(cases, second, end),
        u16_at(cases, at + 4) as usize,
    );
    end
}

// mixmerge in a folder, and the book that stands there afterwards.
fn folder(rt: &HostRuntime, name: &[u8]) {
    let mut book = [0u8; 40001];
    test_printing::title(rt, name);
    merge_folder::file_merged(rt, name);
    let n = file_io::read_in(rt, name, b"merged.wbk", &mut book);
    test_printing::line(rt, b"bytes", n as u64);
    test_printing::line(rt, b"sum", test_buffers::checksum(&book[..n]));
}

// The folder at `start`: the length of its name in 2 bytes, and the name. Gives back where the next one starts.
fn folder_at(rt: &HostRuntime, cases: &[u8], start: usize) -> usize {
    let at = start % 1000000;
    let from = at + 2;
    let end = from + u16_at(cases, at) as usize;
    folder(rt, between(cases, from, end));
    end
}

// All of it: the cases, and mixmerge in one folder after another. The names of the folders start behind the last case.
fn run(rt: &HostRuntime, cases: &[u8]) {
    let names = test_cases::each(rt, cases, 400, case);
    test_cases::one_after_another(rt, cases, names, 11, folder_at);
}

fn main(rt: HostRuntime) {
    test_cases::with_file::<304000, _>(&rt, b"cases.dat", run);
}
