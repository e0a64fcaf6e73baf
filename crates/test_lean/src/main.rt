// Reports of the boats that cards rest on, for sets of cards written by hand and drawn, and leanlist in one folder after another. The cases and
// folders are made by tests/leanings.py, the expected output by tests/expected/test_lean.py.
#![tactic(auto)]

use refusals::Refusal;
use test_buffers::{between, u16_at};

// Where the next pair of a file of cases starts, and what refused one so far.
#[derive(Clone, Copy)]
struct Walk {
    at: usize,
    checked: Result<(), Refusal>,
}

// Checks the pair that starts at `w.at`, two lengths of 2 bytes each and both files, unless something was refused.
fn pair(book: &[u8], cases: &[u8], w: Walk, before: usize, slots: &mut [u16]) -> Walk {
    let at = w.at % 1000000;
    let sheet = at + 4;
    let filed = sheet + u16_at(cases, at) as usize;
    let end = filed + u16_at(cases, at + 2) as usize;
    if w.checked.is_err() {
        return Walk {
            at: end,
            checked: w.checked,
        };
    }
    let checked = lean_cards::lean_card(
        book,
        between(cases, sheet, filed),
        between(cases, filed, end),
        before,
        slots,
    );
    Walk { at: end, checked }
}

// The number of what refused one, 0 where nothing did.
fn number_of(checked: Result<(), Refusal>) -> u32 {
    match checked {
        Ok(()) => 0,
        Err(refusal) => refusal.number(),
    }
}

// Prints the report of `cards` cards, of which `pairs` pairs are there to be read from `start` on. Gives back where the next case starts.
fn report(
    rt: &HostRuntime,
    book: &[u8],
    cases: &[u8],
    start: usize,
    cards: usize,
    pairs: usize,
) -> usize {
    let mut slots = [7u16; leaning::MOST_SLOTS];
    let mut w = Walk {
        at: start,
        checked: lean_cards::lean_start(book, cards),
    };
    for k in 0..pairs {
        w = pair(book, cases, w, k, &mut slots);
    }
    file_io::print(
        rt,
        lean_listing::lean_text(book, number_of(w.checked), cards, &slots),
    );
    w.at
}

// The case at `start`: three numbers of 2 bytes each, the book, then its pairs. Gives back where the next case starts.
fn case(rt: &HostRuntime, cases: &[u8], start: usize) -> usize {
    let at = start % 1000000;
    let book = at + 6;
    let end = book + u16_at(cases, at) as usize;
    report(
        rt,
        between(cases, book, end),
        cases,
        end,
        u16_at(cases, at + 2) as usize,
        u16_at(cases, at + 4) as usize,
    )
}

// The report of one card of the first case's book, in fewer slots than it needs.
fn too_few_slots(rt: &HostRuntime, cases: &[u8]) {
    let slots = [1u16; 255];
    test_printing::title(rt, b"too few slots");
    let book = between(cases, 6, 6 + u16_at(cases, 0) as usize);
    file_io::print(rt, lean_listing::lean_text(book, 0, 1, &slots));
}

// leanlist in a folder.
fn folder(rt: &HostRuntime, name: &[u8]) {
    test_printing::title(rt, name);
    lean_folder::list_boats(rt, name);
}

// The folder at `start`: the length of its name in 2 bytes, and the name. Gives back where the next one starts.
fn folder_at(rt: &HostRuntime, cases: &[u8], start: usize) -> usize {
    let at = start % 1000000;
    let from = at + 2;
    let end = from + u16_at(cases, at) as usize;
    folder(rt, between(cases, from, end));
    end
}

// All of it: the cases, the report in fewer slots, and leanlist in one folder after another. The names of the folders start behind the last case.
fn run(rt: &HostRuntime, cases: &[u8]) {
    let names = test_cases::each(rt, cases, 160, case);
    too_few_slots(rt, cases);
    test_cases::one_after_another(rt, cases, names, 20, folder_at);
}

fn main(rt: HostRuntime) {
    test_cases::with_file::<240000, _>(&rt, b"cases.dat", run);
}
