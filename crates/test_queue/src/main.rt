// Queues of sheets on one allowance, for queues written by hand and drawn, through run_plan, on which dofitrano_run_queue stands; then mixqueue in one
// folder after another. The cases are made by tests/queues.py, the expected output by tests/expected/test_queue.py.
#![tactic(auto)]

ghost use Rattle.std.specs.Prelude.{◌<◌};

use queue_rounds::{Plan, Refused, Served};
use test_buffers::{between, u16_at};
use test_cases::u32_at;

// The sheets of the queue at `at`.
fn plan_at(cases: &[u8], at: usize) -> Plan {
    let mut lengths = [0u32; 16];
    for i in 0..16 {
        lengths[i] = u32_at(cases, at % 1000000 + 12 + 4 * i);
    }
    Plan {
        count: u16_at(cases, at) as usize,
        lengths,
    }
}

// A slot in a wider type.
fn wide(x: u16) -> u64
    ensures { result < 65536 }
{
    x as u64
}

// A number that depends on every slot and its place.
fn sum_of(slots: &[u16]) -> u64 {
    let mut sum = 0;
    for i in 0..slots.len() {
        sum = (257 * sum + wide(slots[i])) % 1000003;
    }
    sum
}

// Prints record i.
fn record(rt: &HostRuntime, served: Served, i: usize) {
    if 16 <= i {
        return;
    }
    let record = queue_rounds::record_at(served, i);
    test_printing::word(rt, b"record");
    test_printing::number(rt, record.asked as u64);
    test_printing::number(rt, record.used as u64);
    test_printing::number(rt, if record.finished { 1 } else { 0 });
    test_printing::number(rt, record.distance);
    test_printing::number(rt, record.gap);
    test_printing::number(rt, record.verdict as u64);
    test_printing::number(rt, record.length as u64);
    test_printing::word(rt, b"\n");
}

// Prints the records of a queue.
fn records(rt: &HostRuntime, served: Served) {
    let count = served.count;
    for i in 0..count {
        record(rt, served, i);
    }
}

// The queue with the first `slots` slots of a list, all of them where it has fewer.
fn run_within(
    plan: Plan,
    book: &[u8],
    sheets: &[u8],
    allowance: u32,
    shares: &mut [u16],
    slots: usize,
) -> Result<Served, Refused> {
    if shares.len() < slots {
        return queue_rounds::run_plan(plan, book, sheets, allowance, shares);
    }
    queue_rounds::run_plan(plan, book, sheets, allowance, &mut shares[..slots])
}

// The case at `start`: four numbers of 2 bytes each, the allowance, 16 lengths, then the book and the sheets. Gives back where the next
// case starts.
fn case(rt: &HostRuntime, cases: &[u8], start: usize) -> usize {
    let at = start % 1000000;
    let book = at + 76;
    let sheets = book + u16_at(cases, at + 4) as usize;
    let end = sheets + u16_at(cases, at + 6) as usize;
    let mut shares = [7u16; 4200];
    let outcome = run_within(
        plan_at(cases, at),
        between(cases, book, sheets),
        between(cases, sheets, end),
        u32_at(cases, at + 8),
        &mut shares,
        u16_at(cases, at + 2) as usize,
    );
    match outcome {
        Ok(served) => {
            test_printing::line(rt, b"refused", 0);
            test_printing::line(rt, b"accepted", served.count as u64);
            records(rt, served);
        }
        Err(refused) => {
            test_printing::refused(rt, refused.reason.number());
            test_printing::line(rt, b"accepted", refused.accepted as u64);
        }
    }
    test_printing::line(rt, b"sum", sum_of(&shares));
    end
}

// The run of mixqueue at `start`: the allowance in 4 bytes, the length of the folder's name in 2, and the name. Gives back where the next run
// starts.
fn folder(rt: &HostRuntime, cases: &[u8], start: usize) -> usize {
    let at = start % 1000000;
    let allowance = u32_at(cases, at);
    let from = at + 6;
    let end = from + u16_at(cases, at + 4) as usize;
    let name = between(cases, from, end);
    test_printing::title(rt, name);
    test_printing::line(rt, b"allowance", allowance as u64);
    queue_folder::list_queue(rt, name, allowance);
    end
}

// All of it: the cases, and mixqueue in one folder after another. The runs start behind the last case.
fn run(rt: &HostRuntime, cases: &[u8]) {
    let runs = test_cases::each(rt, cases, 240, case);
    test_cases::one_after_another(rt, cases, runs, 32, folder);
}

fn main(rt: HostRuntime) {
    test_cases::with_file::<110000, _>(&rt, b"cases.dat", run);
}
