// Drawn fleet books and sheets, small ones and two of full size, one of these with the most steps, and books with mirrored rows,
// searched and listed.
// The expected output is made by tests/expected/test_random.py.
#![tactic(auto)]

mod mirrored;

use iteration::State;
use method::Answer;
use test_samples::Plan;

// The quotient x / (w * w) - 1, x / (w * w) or x / (w * w) + 1, in the range of a tolerance.
fn beside(x: u64, w: u64, kind: u64) -> u64 {
    let square = test_buffers::times(w, w);
    if square == 0 {
        return 0;
    }
    let q = x / square % 1000000000 + kind % 3;
    if q == 0 {
        return 0;
    }
    q - 1
}

// A tolerance near the squared distance of an answer, or near its floor.
fn near(a: Answer, kind: u64) -> u64 {
    let w = a.weight as u64;
    let e = a.distance;
    let g = a.gap;
    if kind < 3 {
        return beside(e, w, kind);
    }
    if e / 2 < g {
        return 0;
    }
    beside(e - 2 * g, w, kind)
}

// A tolerance for files that were given the tolerance 0: a small one, a large one, or one near what the run finds.
fn tolerance_for(book: &[u8], sheet: &[u8], seed: &mut u64) -> u64 {
    let kind = test_samples::draw(seed, 8);
    let small = test_samples::draw(seed, 10);
    let large = test_samples::draw(seed, 2000000);
    if kind == 6 {
        return small;
    }
    if kind == 7 {
        return large;
    }
    let mut shares = [0u16; 256];
    let found = search::search(book, sheet, &mut shares);
    match found {
        Err(_) => small,
        Ok(a) => near(a, kind),
    }
}

// What the search gives of two files: what its verdict carries, and the listing.
fn report(rt: &HostRuntime, book: &[u8], sheet: &[u8]) {
    let mut shares = [0u16; 256];
    let found = search::search(book, sheet, &mut shares);
    if let Ok(a) = found {
        let v = a.verdict;
        test_printing::carried(rt, v);
    }
    file_io::print(rt, search_listing::search_listing(book, sheet).text);
}

// Searches and lists the files in two buffers up to `n` and up to `m`, with a drawn tolerance.
fn run(rt: &HostRuntime, book: &[u8], n: usize, sheet: &mut [u8], m: usize, seed: &mut u64) {
    let tolerance = tolerance_for(
        test_buffers::between(book, 0, n),
        test_buffers::between(sheet, 0, m),
        seed,
    );
    test_buffers::put_number(sheet, test_buffers::less(m, 8), tolerance, 4);
    report(
        rt,
        test_buffers::between(book, 0, n),
        test_buffers::between(sheet, 0, m),
    );
}

// One drawn case.
fn one(rt: &HostRuntime, seed: &mut u64, number: u64, plan: Plan) {
    let mut book = [0u8; 40001];
    let mut sheet = [0u8; 40001];
    test_printing::line(rt, b"case", number);
    let placed = test_samples::put_book(&mut book, seed, plan);
    let rows = placed.rows;
    let end = placed.end;
    let m = test_samples::put_sheet(&mut sheet, seed, plan, &book, rows, 0);
    run(rt, &book, end, &mut sheet, m, seed);
}

// One drawn case of mirrored rows, tolerance 0.
fn mirrored_case(rt: &HostRuntime, seed: &mut u64, number: u64) {
    let mut book = [0u8; 84];
    let mut sheet = [0u8; 22];
    test_printing::line(rt, b"mirrored", number);
    let plan = mirrored::draw_plan(seed);
    let n = mirrored::put_book(&mut book, seed, plan);
    let m = mirrored::put_sheet(&mut sheet, seed, plan);
    report(
        rt,
        test_buffers::between(&book, 0, n),
        test_buffers::between(&sheet, 0, m),
    );
}

fn mirrored_cases(rt: &HostRuntime) {
    let mut seed = 6;
    for number in 0..1000 {
        mirrored_case(rt, &mut seed, number);
    }
}

fn full(steps: u64) -> Plan {
    Plan {
        boats: 256,
        columns: 64,
        scale: 2000,
        steps,
        front: 3,
    }
}

fn main(rt: HostRuntime) {
    let mut seed = 6;
    for number in 0..3000 {
        let plan = test_samples::draw_plan(&mut seed);
        one(&rt, &mut seed, number, plan);
    }
    one(&rt, &mut seed, 3000, full(40));
    one(&rt, &mut seed, 3001, full(State::MOST_STEPS as u64));
    mirrored_cases(&rt);
}
