// Books of small values in which rows are mirrored, so that different rows often have equal scores. Repeated rows alone would not show
// which of equals is picked: the lowest-numbered of them is picked first and holds shares from then on.
use test_samples::Plan;

// 6 to 12 boats, 2 or 3 columns, 3 to 20 steps.
pub fn draw_plan(seed: &mut u64) -> Plan {
    let boats = test_samples::draw(seed, 7) + 6;
    let columns = test_samples::draw(seed, 2) + 2;
    let steps = test_samples::draw(seed, 18) + 3;
    Plan {
        boats,
        columns,
        scale: 2,
        steps,
        front: 0,
    }
}

// Puts the row that stands at `from` once more, with the value of one column negated.
fn put_mirrored(buffer: &mut [u8], at: usize, from: usize, columns: u64, column: u64) -> usize {
    let mut next = at;
    for i in 0..columns {
        let x = test_buffers::u16_at(buffer, from % 65536 + 2 * (i % 65536) as usize);
        let y = if i == column { 65536 - x % 65536 } else { x };
        next = test_buffers::put_number(buffer, next, y, 2);
    }
    next
}

// Puts row `i`, which starts at `at`: a row before it with one value negated where `kind` is 0, else a drawn one.
fn put_row(buffer: &mut [u8], at: usize, seed: &mut u64, i: u64, kind: u64, plan: Plan) -> usize {
    let columns = plan.columns;
    if kind == 0 {
        if i != 0 {
            let boat = test_samples::draw(seed, i);
            let column = test_samples::draw(seed, columns);
            let from = (2 * test_buffers::times(boat, columns)) as usize;
            return put_mirrored(buffer, at, from, columns, column);
        }
    }
    test_samples::put_row(buffer, at, seed, columns, plan.scale)
}

// Puts a fleet book, about one in three of its rows mirrored, and gives back where it ends.
pub fn put_book(buffer: &mut [u8], seed: &mut u64, plan: Plan) -> usize {
    let boats = plan.boats;
    let columns = plan.columns;
    let mut at = 0;
    for i in 0..boats {
        let kind = test_samples::draw(seed, 3);
        at = put_row(buffer, at, seed, i, kind, plan);
    }
    let back = 2 * test_buffers::times(boats, columns);
    test_buffers::put_book_trailer(buffer, at, back, boats, columns)
}

// Puts a sheet of tolerance 0 whose target starts with some zeros, and gives back where it ends.
pub fn put_sheet(buffer: &mut [u8], seed: &mut u64, plan: Plan) -> usize {
    let columns = plan.columns;
    let zeros = test_samples::draw(seed, columns % 65536 + 1);
    let rest = if zeros <= columns { columns - zeros } else { 0 };
    let at = test_buffers::put_number(buffer, 0, 0, test_buffers::times(2, zeros));
    let end = test_samples::put_row(buffer, at, seed, rest, plan.scale);
    test_buffers::put_sheet_trailer(buffer, end, columns, plan.steps, 0)
}
