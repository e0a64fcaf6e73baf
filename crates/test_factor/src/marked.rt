// Runs with tables of shares and released sets that tests/test_exact.py works out by hand, and each refusal of a table and of a set beside its
// neighbours, on boats (0,0), (4,0) and (0,4).
use method::Released;
use test_buffers::{between, less, put_number};
use test_terms::tables::first;

// Puts the book into a buffer of zeros.
fn put_book(buffer: &mut [u8]) -> usize {
    put_number(buffer, 4, 4, 2);
    let at = put_number(buffer, 10, 4, 2);
    test_buffers::put_book_trailer(buffer, at, 12, 3, 2)
}

// Puts a sheet with one value in both columns.
fn put_sheet(buffer: &mut [u8], value: u64, steps: u64, tolerance: u64) -> usize {
    let a = put_number(buffer, 0, value, 2);
    let b = put_number(buffer, a, value, 2);
    test_buffers::put_sheet_trailer(buffer, b, 2, steps, tolerance)
}

// A sheet with the first shares of a table.
fn case(
    rt: &HostRuntime,
    name: &[u8],
    table: &[u16],
    count: usize,
    value: u64,
    steps: u64,
    tolerance: u64,
) {
    let mut book = [0u8; 64];
    let mut sheet = [0u8; 64];
    let counted = [1u16, 2, 3];
    let n = put_book(&mut book);
    let m = put_sheet(&mut sheet, value, steps, tolerance);
    test_printing::title(rt, name);
    crate::lent::under(
        rt,
        between(&book, 0, n),
        between(&sheet, 0, m),
        first(table, count),
        first(table, less(count, 1)),
        &counted,
        3,
    );
}

// The runs, of which tests/test_exact.py has the numbers.
fn runs(rt: &HostRuntime) {
    let ones = [1u16, 1, 1];
    let greatest = [2u16, 3];
    let falling = [2u16, 1, 1];
    let counted = [1u16, 2, 3];
    case(rt, b"table 1 1 1", &ones, 3, 1, 9, 0);
    case(rt, b"table 2 3", &greatest, 2, 1, 9, 1);
    case(rt, b"table 2 1 1", &falling, 3, 1, 9, 3);
    case(rt, b"table 2 1 1, 2 steps", &falling, 3, 1, 2, 2);
    case(rt, b"table 2", &falling, 1, 5, 9, 1);
    case(rt, b"table 1 2 3", &counted, 3, 1, 9, 1);
    case(rt, b"table 1 2", &counted, 2, 1, 9, 1);
}

// Tables that are refused, and one that is not.
fn refused(rt: &HostRuntime) {
    let zeros = [1u16, 0];
    let three = [3u16];
    let early = [1u16, 3];
    let later = [1u16, 1, 3];
    case(rt, b"table of no share", &zeros, 0, 1, 9, 1);
    case(rt, b"table 1 0", &zeros, 2, 1, 9, 1);
    case(rt, b"table 3", &three, 1, 1, 9, 1);
    case(rt, b"table 1 3", &early, 2, 1, 9, 1);
    case(rt, b"table 1 1 3", &later, 3, 1, 9, 1);
}

// A table of so many shares of one of the kinds that are drawn.
fn long(rt: &HostRuntime, name: &[u8], kind: u64, count: usize) {
    let mut table = [0u16; 361];
    let mut seed = 1;
    test_terms::tables::put_shares(&mut table, &mut seed, kind, count, 361);
    case(rt, name, &table, count, 1, 9, 1);
}

// The sheet of target (1,1) with a set whose bytes are zeros but for one, with no table or the table 2 1.
fn case_among(
    rt: &HostRuntime,
    name: &[u8],
    k: usize,
    byte: u8,
    table: Option<&[u16]>,
    steps: u64,
    tolerance: u64,
) {
    let mut book = [0u8; 64];
    let mut sheet = [0u8; 64];
    let n = put_book(&mut book);
    let m = put_sheet(&mut sheet, 1, steps, tolerance);
    let mut boats = [0u8; 32];
    boats[k % 32] = byte;
    let all = between(&book, 0, n);
    let set = Released {
        limited: true,
        boats,
    };
    test_printing::title(rt, name);
    crate::lent::among(
        rt,
        all,
        all,
        between(&sheet, 0, m),
        set,
        crate::lent::none(),
        table,
        3,
    );
}

// Sets of one byte that is not 0.
fn sets(rt: &HostRuntime) {
    let table = [2u16, 1];
    case_among(rt, b"boats 1 and 2", 0, 6, None, 2, 1);
    case_among(rt, b"boats 1 and 2, table 2 1", 0, 6, Some(&table), 9, 2);
    case_among(rt, b"boat 0", 0, 1, None, 9, 1);
    case_among(rt, b"boat 2", 0, 4, None, 9, 10);
    case_among(rt, b"all boats", 0, 7, None, 9, 1);
    case_among(rt, b"no boat", 0, 0, None, 9, 1);
    case_among(rt, b"boats 2 and 3", 0, 12, None, 9, 1);
    case_among(rt, b"boat 8", 1, 1, None, 9, 1);
    case_among(rt, b"boat 255", 31, 128, None, 9, 1);
}

// All of them.
pub fn marked(rt: &HostRuntime) {
    runs(rt);
    refused(rt);
    long(rt, b"table of 360 times 1", 0, 360);
    long(rt, b"table of 361 times 1", 0, 361);
    long(rt, b"table of 1 to 360", 1, 360);
    long(rt, b"table of 2 and 2 to 360", 7, 360);
    long(rt, b"table of 2 to 360", 3, 359);
    long(rt, b"table of 2 to 361", 3, 360);
    sets(rt);
}
