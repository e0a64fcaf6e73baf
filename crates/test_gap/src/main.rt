// Drawn fleet books, followed for K steps without regard to verdicts: the step where the gap is least, against the bound that some
// step up to K keeps to. The expected output is made by tests/expected/test_gap.py.
#![tactic(auto)]

ghost use Rattle.std.specs.Prelude.{◌≡◌, ◌+◌, ◌*◌, ◌<◌, max, drop};
ghost use Rattle.files.specs.Book.{boats, columns, rows};
ghost use Rattle.files.specs.Sheet.{files_refusal};
ghost use Rattle.frank_wolfe.specs.Vectors.{subtract, weighted_norm, ones};
ghost use Rattle.method.specs.Problem.{fixed};
ghost use Rattle.method.specs.Plain.{plain_problem};
ghost use Rattle.method.specs.Iterates.{row, farthest, diameter};
ghost use Rattle.iteration.specs.States.{file_layout, Holds};

use iteration::{Layout, State};
use method::Answer;
use test_samples::Plan;

const LARGEST: u64 = 18446744073709551615;

// A product, the largest number where it does not fit.
fn product(a: u64, b: u64) -> u64
    ensures { a * b < 18446744073709551616 → result ≡ a * b }
{
    if b == 0 {
        return 0;
    }
    if LARGEST / b < a {
        return LARGEST;
    }
    a * b
}

// The greater of two numbers.
fn greater(a: u64, b: u64) -> u64
    ensures { result ≡ max a b }
{
    if a < b { b } else { a }
}

// The squared distance between the rows of two boats.
fn squared_distance(i: usize, j: usize, book: &[u8], sheet: &[u8], layout: Layout) -> u64
    requires sheet_value { files_refusal book.now sheet.now ≡ 0 }
    requires layout_value { layout ≡ file_layout book.now sheet.now }
    requires i_bound { (i < boats book.now) × (j < boats book.now) }
    ensures { result ≡ weighted_norm (ones (columns book.now)) (subtract (row (rows book.now) i) (row (rows book.now) j)) }
{
    let start = layout.rows;
    let columns = layout.columns;
    let a = start + 2 * (i * columns);
    let b = start + 2 * (j * columns);
    let d = sums::moved([0i32; 64], book, a, book, b, columns, 1);
    sums::squared_norm(&d, columns)
}

// The greatest squared distance from the row of a boat to one after it.
fn farthest(i: usize, book: &[u8], sheet: &[u8], layout: Layout) -> u64
    requires sheet_value { files_refusal book.now sheet.now ≡ 0 }
    requires layout_value { layout ≡ file_layout book.now sheet.now }
    requires i_bound { i < boats book.now }
    ensures { result ≡ farthest (ones (columns book.now)) (row (rows book.now) i) (drop (i + 1) (rows book.now)) }
{
    let mut most = 0;
    for j in (i + 1..layout.boats).rev() {
        most = greater(squared_distance(i, j, book, sheet, layout), most);
    }
    most
}

// D²: the greatest squared distance between two rows.
fn diameter(book: &[u8], sheet: &[u8], layout: Layout) -> u64
    requires sheet_value { files_refusal book.now sheet.now ≡ 0 }
    requires layout_value { layout ≡ file_layout book.now sheet.now }
    ensures { result ≡ diameter (plain_problem fixed book.now sheet.now) }
{
    let mut most = 0;
    for i in (0..layout.boats).rev() {
        most = greater(farthest(i, book, sheet, layout), most);
    }
    most
}

// What was found of a book: the first step where the ratio is least, with its W, G and ratio in thousandths, and whether some step
// and every step keeps to the bound.
#[derive(Clone, Copy)]
struct Found {
    step: u32,
    weight: u32,
    gap: u64,
    ratio: u64,
    some: bool,
    every: bool,
}

// The ratio 4 (K + 2) G / (D² W²) in thousandths, rounded down; 0 where D² is 0.
fn ratio(a: Answer, steps: u32, diameter: u64) -> u64 {
    let w = a.weight as u64;
    let d = product(diameter, product(w, w));
    if d == 0 {
        return 0;
    }
    let n = product(a.gap, 4 * (steps as u64 + 2));
    n / d % 1000000 * 1000 + product(n % d, 1000) / d % 1000
}

// The greatest G that keeps to the bound, 4 (K + 2) G at most 27 D² W².
fn most_gap(w: u64, steps: u32, diameter: u64) -> u64 {
    product(27, product(diameter, product(w, w))) / (4 * (steps as u64 + 2))
}

// What is found with one step more.
fn with_step(found: Found, a: Answer, steps: u32, diameter: u64) -> Found {
    let x = ratio(a, steps, diameter);
    let kept = a.gap <= most_gap(a.weight as u64, steps, diameter);
    let some = if kept { true } else { found.some };
    let every = if kept { found.every } else { false };
    if x < found.ratio {
        return Found {
            step: a.steps,
            weight: a.weight,
            gap: a.gap,
            ratio: x,
            some,
            every,
        };
    }
    Found {
        step: found.step,
        weight: found.weight,
        gap: found.gap,
        ratio: found.ratio,
        some,
        every,
    }
}

// What is found over all steps of the sheet.
fn follow(start: State, book: &[u8], sheet: &[u8], layout: Layout, diameter: u64) -> Found
    requires sheet_value { files_refusal book.now sheet.now ≡ 0 }
    requires layout_value { layout ≡ file_layout book.now sheet.now }
    requires holds { Holds fixed book.now sheet.now 0 start }
{
    let steps = files::steps(sheet);
    let mut shares = [0u16; 256];
    let mut scores = [0i64; 256];
    let mut tags = [0u8; 257];
    let mut targets = [0i32; 64];
    let mut memory = [0i32; 16384];
    let mut state = start;
    let mut found = Found {
        step: 0,
        weight: 0,
        gap: 0,
        ratio: LARGEST,
        some: false,
        every: true,
    };
    for made in 0..steps {
        state = run_loop::step(
            state,
            book,
            sheet,
            None,
            layout,
            &mut shares,
            &mut scores,
            &mut tags,
            &mut targets,
            &mut memory,
        );
        found = with_step(found, state.answer(sheet), steps, diameter);
    }
    found
}

// Totals over the books: how many there are, have a step that keeps to the bound, have no other; and the greatest of their ratios.
#[derive(Clone, Copy)]
struct Totals {
    books: u64,
    some: u64,
    every: u64,
    ratio: u64,
}

// A count with one more where `yes`, to 65,536.
fn counted(n: u64, yes: bool) -> u64 {
    if yes {
        if n < 65536 {
            return n + 1;
        }
    }
    n
}

// The totals with one book more.
fn with_book(totals: Totals, found: Found) -> Totals {
    Totals {
        books: counted(totals.books, true),
        some: counted(totals.some, found.some),
        every: counted(totals.every, found.every),
        ratio: greater(totals.ratio, found.ratio),
    }
}

// A line of what was found.
fn report(rt: &HostRuntime, found: Found, steps: u32, diameter: u64) {
    test_printing::word(rt, b"K");
    test_printing::number(rt, steps as u64);
    test_printing::word(rt, b" D2");
    test_printing::number(rt, diameter);
    test_printing::word(rt, b" t");
    test_printing::number(rt, found.step as u64);
    test_printing::word(rt, b" W");
    test_printing::number(rt, found.weight as u64);
    test_printing::word(rt, b" G");
    test_printing::number(rt, found.gap);
    test_printing::word(rt, b" ratio");
    test_printing::number(rt, found.ratio);
    if found.every {
        test_printing::word(rt, b" every");
    }
    if !found.some {
        test_printing::word(rt, b" none");
    }
    test_printing::word(rt, b"\n");
}

// The totals.
fn summary(rt: &HostRuntime, totals: Totals) {
    test_printing::line(rt, b"books", totals.books);
    test_printing::line(rt, b"some step keeps to the bound", totals.some);
    test_printing::line(rt, b"every step does", totals.every);
    test_printing::line(rt, b"greatest ratio", totals.ratio);
}

// Follows the method on a book and a sheet, and reports.
fn followed(rt: &HostRuntime, book: &[u8], sheet: &[u8], totals: Totals) -> Totals {
    if let Err(refusal) = validation::files_refusal(book, sheet) {
        test_printing::refused(rt, refusal.number());
        return totals;
    }
    let layout = iteration::layout_of(book, sheet);
    let d = diameter(book, sheet, layout);
    let start = State::fresh(book, sheet, layout);
    let found = follow(start, book, sheet, layout, d);
    report(rt, found, files::steps(sheet), d);
    with_book(totals, found)
}

// Puts `count` values at either limit.
fn put_limits(buffer: &mut [u8], at: usize, seed: &mut u64, count: u64) {
    let mut next = at;
    for i in 0..count {
        let x = test_samples::draw(seed, 2);
        next = test_buffers::put_number(buffer, next, 2000 + 61536 * (x % 2), 2);
    }
}

// One drawn book and sheet; the values of every fifth book are at the limits.
fn one(rt: &HostRuntime, seed: &mut u64, number: u64, plan: Plan, totals: Totals) -> Totals {
    let mut book = [0u8; 40001];
    let mut sheet = [0u8; 40001];
    let placed = test_samples::put_book(&mut book, seed, plan);
    let rows = placed.rows;
    let end = placed.end;
    let size = test_buffers::times(plan.boats, plan.columns);
    let count = if number % 5 == 4 { size } else { 0 };
    put_limits(&mut book, rows, seed, count);
    let m = test_samples::put_sheet(&mut sheet, seed, plan, &book, rows, 0);
    followed(
        rt,
        test_buffers::between(&book, 0, end),
        test_buffers::between(&sheet, 0, m),
        totals,
    )
}

// The sizes of a drawn book, with 2 to 40 steps; all values of every tenth book are 0.
fn draw_plan(seed: &mut u64, number: u64) -> Plan {
    let plan = test_samples::draw_plan(seed);
    let steps = test_samples::draw(seed, 39) % 39 + 2;
    let scale = if number % 10 == 3 { 0 } else { plan.scale };
    Plan {
        boats: plan.boats,
        columns: plan.columns,
        scale,
        steps,
        front: plan.front,
    }
}

// A book followed for as many steps as a sheet may ask for.
fn longest(scale: u64) -> Plan {
    Plan {
        boats: 8,
        columns: 3,
        scale,
        steps: State::MOST_STEPS as u64,
        front: 0,
    }
}

fn main(rt: HostRuntime) {
    let mut seed = 9;
    let mut totals = Totals {
        books: 0,
        some: 0,
        every: 0,
        ratio: 0,
    };
    for number in 0..600 {
        let plan = draw_plan(&mut seed, number);
        totals = one(&rt, &mut seed, number, plan, totals);
    }
    totals = one(&rt, &mut seed, 600, longest(1), totals);
    totals = one(&rt, &mut seed, 601, longest(10), totals);
    summary(&rt, totals);
}
