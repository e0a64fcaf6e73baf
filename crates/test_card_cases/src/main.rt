// Cards of the marked sheets: written and read back, in buffers of every fit, behind front text, and with each bit flipped.
// The expected output is made by tests/expected/test_card_cases.py.
#![tactic(auto)]

mod flips;
mod inputs;
mod marked;

use test_buffers::between;
use test_tables::field;

// A case for the fleet book and the sheet of its line, of the kind behind J.
fn case_for(rt: &HostRuntime, line: &[u8], book: &[u8], sheet: &[u8]) {
    match field(line, b'J', 0) {
        0 => marked::marked(rt, test_tables::name(line), book, sheet),
        1 => marked::refused_sheet(rt, book, sheet),
        _ => marked::short_list(rt, book, sheet),
    }
}

fn case(rt: &HostRuntime, line: &[u8]) {
    let mut book = [0u8; 40];
    let mut sheet = [0u8; 40];
    let n = inputs::put_fleet(&mut book, line);
    let m = inputs::put_sheet(&mut sheet, line);
    case_for(rt, line, between(&book, 0, n), between(&sheet, 0, m));
}

// Each line of a table.
fn each_case(rt: &HostRuntime, table: &str) {
    for line in table.lines() {
        case(rt, line.as_bytes());
    }
}

// Two calls that are refused, and the nine marked sheets that have a card.
// Letters: J the kind of case, F the fleet, H its columns, X and Y the target, M the sheet's steps, D its tolerance. Left out are
// those of fleet P, the target (1,1), 9 steps and the tolerance 1.
fn main(rt: HostRuntime) {
    each_case(
        &rt,
        "sheet of no steps: J1 M0
list of two slots: J2
a:
b: M3
c: M2
d: X5 Y5
e: F1 X3 Y4 M1 D25
f: F1 X3 Y4 M1 D24
g: F2 X0 Y0 M1 D0
h: F3 H1 X2000 M1 D0
i: F3 H1 X0 M2 D0
",
    );
}
