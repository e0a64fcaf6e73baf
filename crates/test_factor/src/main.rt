// Drawn fleet books with three sheets each, one without factors and two with drawn ones: searched, their cards written and checked by
// all three, the better of two chosen, a sheet searched and checked with drawn tables of shares and released sets, and a sheet damaged. Small
// books, some of 64 columns, one of full size, some of 360 steps, and some of up to 40 boats. Before them, tables and sets written by hand.
// The expected output is made by tests/expected/test_factor.py.
#![tactic(auto)]

mod lent;
mod marked;

use method::Answer;
use test_buffers::{between, less};
use test_samples::{Part, Plan};
use test_terms::{factored, sets, tables};

// The whole part of E / W², less one, as it is or one more.
fn beside(a: Answer, kind: u64) -> u64 {
    let square = test_buffers::times(a.weight as u64, a.weight as u64);
    if square == 0 {
        return 0;
    }
    let q = a.distance / square % 1000000000 + kind % 3;
    if q == 0 {
        return 0;
    }
    q - 1
}

// A tolerance for files that were given the tolerance 0: a small one, a large one, or one near the squared distance that is found.
fn tolerance_for(book: &[u8], sheet: &[u8], seed: &mut u64) -> u64 {
    let kind = test_samples::draw(seed, 6);
    let small = test_samples::draw(seed, 10);
    let large = test_samples::draw(seed, 20000000);
    if kind == 3 {
        return small;
    }
    if 3 < kind {
        return large;
    }
    let mut shares = [0u16; 256];
    match search::search(book, sheet, &mut shares) {
        Err(_) => small,
        Ok(a) => beside(a, kind),
    }
}

// What the search gives of two files: what its verdict carries, and the listing.
fn found(rt: &HostRuntime, book: &[u8], sheet: &[u8]) {
    let mut shares = [7u16; 256];
    let result = search::search(book, sheet, &mut shares);
    if let Ok(a) = result {
        let v = a.verdict;
        test_printing::carried(rt, v);
    }
    file_io::print(rt, search_listing::search_listing(book, sheet).text);
}

// The numbers of a card by three sheets.
fn checked(rt: &HostRuntime, book: &[u8], plain: &[u8], sheet: &[u8], other: &[u8], filed: &[u8]) {
    let mut slots = [7u16; 256];
    test_printing::word(rt, b"checked");
    test_printing::number(
        rt,
        test_printing::refusal_number(card::check_card(book, plain, filed, &mut slots)),
    );
    test_printing::number(
        rt,
        test_printing::refusal_number(card::check_card(book, sheet, filed, &mut slots)),
    );
    test_printing::number(
        rt,
        test_printing::refusal_number(card::check_card(book, other, filed, &mut slots)),
    );
    test_printing::word(rt, b"\n");
}

// Which of two cards is the better by a sheet.
fn chosen(rt: &HostRuntime, book: &[u8], sheet: &[u8], first: &[u8], second: &[u8]) {
    let choice = better_card::choose(book, sheet, first, second);
    test_printing::word(rt, b"better");
    test_printing::number(rt, choice.refusal as u64);
    test_printing::number(rt, choice.card as u64);
    test_printing::number(rt, choice.offset as u64);
    test_printing::number(rt, choice.len as u64);
    test_printing::word(rt, b"\n");
}

// Two cards, each by the three sheets, and the better of them by two.
fn judged(
    rt: &HostRuntime,
    book: &[u8],
    plain: &[u8],
    sheet: &[u8],
    other: &[u8],
    first: &[u8],
    second: &[u8],
) {
    checked(rt, book, plain, sheet, other, first);
    checked(rt, book, plain, sheet, other, second);
    chosen(rt, book, sheet, first, second);
    chosen(rt, book, plain, second, first);
}

// The cards of a search with factors and of one without.
fn cards(rt: &HostRuntime, book: &[u8], plain: &[u8], sheet: &[u8], other: &[u8]) {
    let mut first = [9u8; 1060];
    let mut second = [9u8; 1060];
    let n = test_card_printing::written(rt, book, sheet, &mut first, 1060);
    test_printing::line(rt, b"sum", test_buffers::checksum(&first));
    let m = test_card_printing::written(rt, book, plain, &mut second, 1060);
    judged(
        rt,
        book,
        plain,
        sheet,
        other,
        between(&first, 0, n),
        between(&second, 0, m),
    );
}

// Puts a tolerance into a sheet that ends at `end`.
fn put_tolerance(sheet: &mut [u8], end: usize, tolerance: u64) {
    test_buffers::put_number(sheet, less(end, 8), tolerance, 4);
}

// Lists a sheet, damaged.
fn damaged(rt: &HostRuntime, book: &[u8], sheet: &[u8], seed: &mut u64) {
    let mut changed = [0u8; 256];
    let end = test_buffers::put_bytes(&mut changed, 0, sheet);
    let part = test_samples::damage(&mut changed, end, seed);
    found(rt, book, between(&changed, part.start, part.end));
}

// A sheet with a table and two drawn released sets, then a book with other rows for the boats that are not released.
fn with_sets(
    rt: &HostRuntime,
    book: &[u8],
    sheet: &[u8],
    seed: &mut u64,
    plan: Plan,
    rows: usize,
    table: &[u16],
) {
    let mut other = [0u8; 40001];
    let boats = (plan.boats % 65536) as usize;
    let set = sets::draw_set(seed, boats);
    let another = sets::draw_set(seed, boats);
    let lent = if test_samples::draw(seed, 2) == 0 {
        Some(table)
    } else {
        None
    };
    let end = test_buffers::put_bytes(&mut other, 0, book);
    sets::put_others(&mut other, seed, plan, rows, set);
    lent::among(rt, book, book, sheet, set, another, lent, boats);
    lent::among(
        rt,
        between(&other, 0, end),
        book,
        sheet,
        set,
        another,
        lent,
        boats,
    );
}

// A sheet with two drawn tables of shares, and one of them with released sets.
fn with_terms(
    rt: &HostRuntime,
    book: &[u8],
    sheet: &[u8],
    seed: &mut u64,
    plan: Plan,
    rows: usize,
    choices: u64,
) {
    let mut table = [0u16; 361];
    let mut other = [0u16; 361];
    let n = tables::put_table(&mut table, seed, choices);
    let m = tables::put_table(&mut other, seed, choices);
    let boats = (plan.boats % 65536) as usize;
    lent::under(
        rt,
        book,
        sheet,
        tables::first(&table, n),
        tables::first(&table, less(n, 1)),
        tables::first(&other, m),
        boats,
    );
    with_sets(rt, book, sheet, seed, plan, rows, tables::first(&table, n));
}

// A sheet without factors and two with them: everything that is done with one of these two.
fn tried(
    rt: &HostRuntime,
    book: &[u8],
    plain: &[u8],
    sheet: &[u8],
    other: &[u8],
    seed: &mut u64,
    plan: Plan,
    rows: usize,
    choices: u64,
) {
    found(rt, book, sheet);
    cards(rt, book, plain, sheet, other);
    with_terms(rt, book, sheet, seed, plan, rows, choices);
    damaged(rt, book, sheet, seed);
}

// A book, and its sheet without factors and of tolerance 0: two sheets with factors are made of it, and all three get a tolerance.
fn sheets(
    rt: &HostRuntime,
    book: &[u8],
    bare: &[u8],
    seed: &mut u64,
    plan: Plan,
    rows: usize,
    choices: u64,
) {
    let mut plain = [0u8; 256];
    let mut sheet = [0u8; 256];
    let mut other = [0u8; 256];
    let m = test_buffers::put_bytes(&mut plain, 0, bare);
    let n = factored::put_sheet(&mut sheet, seed, plan, bare);
    let k = factored::put_sheet(&mut other, seed, plan, bare);
    let tolerance = tolerance_for(book, between(&sheet, 0, n), seed);
    put_tolerance(&mut plain, m, tolerance);
    put_tolerance(&mut sheet, n, tolerance);
    put_tolerance(&mut other, k, tolerance);
    tried(
        rt,
        book,
        between(&plain, 0, m),
        between(&sheet, 0, n),
        between(&other, 0, k),
        seed,
        plan,
        rows,
        choices,
    );
}

// One drawn case; the tables have as many shares as one of `choices` says.
fn one(rt: &HostRuntime, seed: &mut u64, number: u64, plan: Plan, choices: u64) {
    let mut book = [0u8; 40001];
    let mut plain = [0u8; 256];
    test_printing::line(rt, b"case", number);
    let placed = test_samples::put_book(&mut book, seed, plan);
    let rows = placed.rows;
    let end = placed.end;
    let m = test_samples::put_sheet(&mut plain, seed, plan, &book, rows, 0);
    sheets(
        rt,
        between(&book, 0, end),
        between(&plain, 0, m),
        seed,
        plan,
        rows,
        choices,
    );
}

// A plan of 64 columns.
fn wide(boats: u64, scale: u64, steps: u64) -> Plan {
    Plan {
        boats,
        columns: 64,
        scale,
        steps,
        front: 3,
    }
}

// Books of 64 columns.
fn wide_cases(rt: &HostRuntime, seed: &mut u64) {
    for number in 0..30 {
        one(rt, seed, number, wide(6, 20, 8), 20);
    }
    one(rt, seed, 30, wide(256, 2000, 12), 20);
}

// Books of 9 to 40 boats, whose sets have more than one byte.
fn larger_cases(rt: &HostRuntime, seed: &mut u64) {
    for number in 0..40 {
        let boats = test_samples::draw(seed, 32) % 32 + 9;
        let plan = Plan {
            boats,
            columns: 2,
            scale: 200,
            steps: 9,
            front: 2,
        };
        one(rt, seed, number, plan, 20);
    }
}

// Sheets of 360 steps with long tables.
fn long_cases(rt: &HostRuntime, seed: &mut u64) {
    for number in 0..6 {
        let plan = Plan {
            boats: 7,
            columns: 3,
            scale: 200,
            steps: 360,
            front: 1,
        };
        one(rt, seed, number, plan, 2);
    }
}

fn main(rt: HostRuntime) {
    marked::marked(&rt);
    let mut seed = 25;
    for number in 0..700 {
        let plan = test_samples::draw_plan(&mut seed);
        one(&rt, &mut seed, number, plan, 20);
    }
    wide_cases(&rt, &mut seed);
    larger_cases(&rt, &mut seed);
    long_cases(&rt, &mut seed);
}
