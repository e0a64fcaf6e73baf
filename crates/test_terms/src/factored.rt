// Sheets with drawn factors, made of sheets without.
use test_samples::Plan;

// Totals to which drawn factors are brought.
const TOTALS: [u64; 8] = [64, 64, 1, 63, 65, 0, 64, 255];

// A factor from a drawn byte: 1, of a small or a larger range, 0, or any byte.
fn factor(kind: u64, x: u64) -> u64 {
    if kind == 0 {
        return 1;
    }
    if kind == 1 {
        return x % 2;
    }
    if kind == 2 {
        return x % 4;
    }
    if kind == 3 {
        return x % 256;
    }
    if kind == 4 {
        return x % 14;
    }
    if kind == 5 {
        return x % 2;
    }
    0
}

// Puts a factor for each column, and gives back their total.
fn put_drawn(buffer: &mut [u8], at: usize, seed: &mut u64, columns: u64, kind: u64) -> u64 {
    let mut next = at;
    let mut total = 0;
    for i in 0..columns {
        let x = factor(kind, test_samples::draw(seed, 256));
        next = test_buffers::put_number(buffer, next, x, 1);
        total = (total % 65536) + (x % 256);
    }
    total
}

// Puts another factor at `place`, so that a total becomes `wanted` where it can.
fn settle(buffer: &mut [u8], place: usize, total: u64, wanted: u64) {
    let x = test_buffers::wide(test_buffers::byte_at(buffer, place));
    let others = test_buffers::less((total % 65536) as usize, x as usize);
    let rest = test_buffers::less((wanted % 65536) as usize, others);
    test_buffers::put_number(buffer, place, rest as u64, 1);
}

// Puts factors, and gives back the offset after them. Half of the kinds bring them to a total of the list.
fn put_factors(buffer: &mut [u8], at: usize, seed: &mut u64, columns: u64) -> usize {
    let kind = test_samples::draw(seed, 8);
    let chosen = test_samples::draw(seed, columns);
    let i = test_samples::draw(seed, 8) % 8;
    let end = at % 65536 + (columns % 65536) as usize;
    let total = put_drawn(buffer, at, seed, columns, kind);
    if kind < 4 {
        return end;
    }
    let place = at % 65536 + (chosen % 65536) as usize;
    settle(buffer, place, total, TOTALS[i as usize]);
    end
}

// Puts a sheet with factors of the values of `plain`, a sheet without, and gives back where it ends.
pub fn put_sheet(buffer: &mut [u8], seed: &mut u64, plan: Plan, plain: &[u8]) -> usize {
    let columns = plan.columns;
    let values = test_buffers::between(plain, 0, test_buffers::less(plain.len(), 16));
    let at = test_buffers::put_bytes(buffer, 0, values);
    let a = put_factors(buffer, at, seed, columns);
    let b = test_buffers::put_number(buffer, a, 3 * (columns % 65536), 4);
    let c = test_buffers::put_number(buffer, b, columns, 2);
    let d = test_buffers::put_number(buffer, c, plan.steps, 2);
    let e = test_buffers::put_number(buffer, d, 0, 4);
    test_buffers::put_bytes(buffer, e, b"WSH2")
}
