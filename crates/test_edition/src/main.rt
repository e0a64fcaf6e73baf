// Cards of both editions: those that were filed before WCD2, and drawn ones at the border of the sharper test.
// data/ has books and sheets that tests/make_data.py makes, and their cards as the program filed them before WCD2. The expected
// output is made by tests/expected/test_edition.py.
#![tactic(auto)]

use method::{Answer, Verdict};
use test_buffers::between;

// The last letter of an edition.
const WCD1: u64 = 49;

const WCD2: u64 = 50;

// Checks a card with a list of 20 slots that hold 7, and prints the list.
fn checked(rt: &HostRuntime, book: &[u8], sheet: &[u8], filed: &[u8]) {
    let mut slots = [7u16; 20];
    test_printing::searched(rt, card::check_card(book, sheet, filed, &mut slots));
    test_printing::slots(rt, &slots, 20);
}

// Prints the number of a card in a buffer's first `len` bytes, with another verdict and another last letter.
fn forged(
    rt: &HostRuntime,
    book: &[u8],
    sheet: &[u8],
    filed: &mut [u8],
    len: usize,
    verdict: u64,
    letter: u64,
) {
    let mut slots = [7u16; 20];
    test_buffers::put_number(filed, test_buffers::less(len, 32), verdict, 2);
    test_buffers::put_number(filed, test_buffers::less(len, 1), letter, 1);
    let found = card::check_card(book, sheet, between(filed, 0, len), &mut slots);
    test_printing::number(rt, test_printing::refusal_number(found));
}

// The same with every verdict of one edition.
fn forged_edition(
    rt: &HostRuntime,
    book: &[u8],
    sheet: &[u8],
    filed: &mut [u8],
    len: usize,
    letter: u64,
) {
    test_printing::word(rt, b"forged");
    forged(rt, book, sheet, filed, len, 1, letter);
    forged(rt, book, sheet, filed, len, 2, letter);
    forged(rt, book, sheet, filed, len, 3, letter);
    test_printing::word(rt, b"\n");
}

// A card that was filed before WCD2, as it is and with other verdicts and letters. The line names its book, sheet and card.
fn filed_before(rt: &HostRuntime, line: &[u8]) {
    let mut book = [0u8; 4096];
    let mut sheet = [0u8; 256];
    let mut filed = [0u8; 1060];
    test_printing::title(rt, test_tables::name(line));
    let n = file_io::read_file(rt, test_tables::word(line, b'B'), &mut book);
    let m = file_io::read_file(rt, test_tables::word(line, b'S'), &mut sheet);
    let len = file_io::read_file(rt, test_tables::word(line, b'C'), &mut filed);
    checked(rt, &book[..n], &sheet[..m], &filed[..len]);
    forged_edition(rt, &book[..n], &sheet[..m], &mut filed, len, WCD2);
    forged_edition(rt, &book[..n], &sheet[..m], &mut filed, len, WCD1);
}

// Each line of a table.
fn each(rt: &HostRuntime, table: &str) {
    for line in table.lines() {
        filed_before(rt, line.as_bytes());
    }
}

// Whether an answer is Beyond.
fn is_beyond(a: Answer) -> bool {
    matches!(a.verdict, Verdict::Beyond(_))
}

// Puts a tolerance into the sheet that ends at `m`, and answers whether the search then ends Beyond.
fn ends_beyond(book: &[u8], sheet: &mut [u8], m: usize, tolerance: u64) -> bool {
    let mut shares = [0u16; 256];
    test_buffers::put_number(sheet, test_buffers::less(m, 8), tolerance, 4);
    match search::search(book, between(sheet, 0, m), &mut shares) {
        Err(_) => false,
        Ok(a) => is_beyond(a),
    }
}

// The greatest tolerance at which the search ends Beyond, 0 where it ends so at none: it does at every lower one.
fn border(book: &[u8], sheet: &mut [u8], m: usize) -> u64 {
    let mut best = 0;
    for place in 0u32..30 {
        let bit = 536870912 >> place;
        let next = best % 1073741824 + bit % 1073741824;
        if ends_beyond(book, sheet, m, next) {
            best = next;
        }
    }
    best
}

// A tolerance: one less than the border, the border, one or two more, or 0.
fn tolerance_at(border: u64, kind: u64) -> u64 {
    if kind == 4 {
        return 0;
    }
    let near = border % 1073741824 + kind % 4;
    if near == 0 {
        return 0;
    }
    near - 1
}

// The card of two files, written, with other verdicts and letters, and then as a WCD1 card damaged.
fn run(rt: &HostRuntime, book: &[u8], sheet: &[u8], seed: &mut u64) {
    let mut buffer = [9u8; 80];
    let len = test_card_printing::written(rt, book, sheet, &mut buffer, 80);
    test_printing::line(rt, b"sum", test_buffers::checksum(&buffer));
    checked(rt, book, sheet, between(&buffer, 0, len));
    forged_edition(rt, book, sheet, &mut buffer, len, WCD2);
    forged_edition(rt, book, sheet, &mut buffer, len, WCD1);
    let part = test_samples::damage(&mut buffer, len, seed);
    checked(rt, book, sheet, between(&buffer, part.start, part.end));
}

// One drawn case.
fn one(rt: &HostRuntime, seed: &mut u64, number: u64) {
    let mut book = [0u8; 256];
    let mut sheet = [0u8; 128];
    let plan = test_samples::draw_plan(seed);
    let placed = test_samples::put_book(&mut book, seed, plan);
    let rows = placed.rows;
    let end = placed.end;
    let m = test_samples::put_sheet(&mut sheet, seed, plan, &book, rows, 0);
    let kind = test_samples::draw(seed, 5);
    let limit = border(between(&book, 0, end), &mut sheet, m);
    let tolerance = tolerance_at(limit, kind);
    test_printing::line(rt, b"case", number);
    test_printing::line(rt, b"tolerance", tolerance);
    test_buffers::put_number(&mut sheet, test_buffers::less(m, 8), tolerance, 4);
    run(rt, between(&book, 0, end), between(&sheet, 0, m), seed);
}

// The cards of data/. Letters: B the book, S the sheet, C the card.
fn all_filed_before(rt: &HostRuntime) {
    each(
        rt,
        "a: Bp.wbk Sa.wsh Ca.wcd
b: Bp.wbk Sb.wsh Cb.wcd
c: Bp.wbk Sc.wsh Cc.wcd
d: Bp.wbk Sd.wsh Cd.wcd
e: Be.wbk Se.wsh Ce.wcd
f: Be.wbk Sf.wsh Cf.wcd
g: Bg.wbk Sg.wsh Cg.wcd
h: Bh.wbk Sh.wsh Ch.wcd
i: Bh.wbk Si.wsh Ci.wcd
larger: Blarger.wbk Slarger.wsh Clarger.wcd
far: Bfar.wbk Sfar.wsh Cfar.wcd
short: Bfar.wbk Sshort.wsh Cshort.wcd
tie: Btie.wbk Stie.wsh Ctie.wcd
",
    );
}

fn main(rt: HostRuntime) {
    all_filed_before(&rt);
    let mut seed = 27;
    for number in 0..1000 {
        one(&rt, &mut seed, number);
    }
}
