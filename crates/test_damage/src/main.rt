// Drawn fleet books and sheets, one of the two damaged, listed: most are refused.
// The expected output is made by tests/expected/test_damage.py.
#![tactic(auto)]

use test_samples::Part;

// Lists the files in parts of two buffers.
fn run(rt: &HostRuntime, book: &[u8], a: Part, sheet: &[u8], b: Part) {
    let listed = search_listing::search_listing(
        test_buffers::between(book, a.start, a.end),
        test_buffers::between(sheet, b.start, b.end),
    );
    file_io::print(rt, listed.text);
}

// Damages a file that ends at `end`, where it is the one to damage.
fn damaged(buffer: &mut [u8], end: usize, seed: &mut u64, chosen: bool) -> Part {
    if chosen {
        return test_samples::damage(buffer, end, seed);
    }
    Part { start: 0, end }
}

// One drawn case.
fn one(rt: &HostRuntime, seed: &mut u64, number: u64) {
    let mut book = [0u8; 256];
    let mut sheet = [0u8; 128];
    test_printing::line(rt, b"case", number);
    let plan = test_samples::draw_plan(seed);
    let placed = test_samples::put_book(&mut book, seed, plan);
    let rows = placed.rows;
    let end = placed.end;
    let tolerance = test_samples::draw(seed, 1000);
    let m = test_samples::put_sheet(&mut sheet, seed, plan, &book, rows, tolerance);
    let kind = test_samples::draw(seed, 2);
    let a = damaged(&mut book, end, seed, kind == 0);
    let b = damaged(&mut sheet, m, seed, kind != 0);
    run(rt, &book, a, &sheet, b);
}

fn main(rt: HostRuntime) {
    let mut seed = 7;
    for number in 0..3000 {
        one(&rt, &mut seed, number);
    }
}
