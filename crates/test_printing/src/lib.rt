// Helpers of the test programs: answers and numbers printed.
#![tactic(auto)]

ghost use Rattle.std.specs.Prelude.{◌≡◌};
ghost use Rattle.refusals.specs.Numbers.{refusal_number};

use method::{Answer, Verdict};
use refusals::Refusal;

// A word.
pub fn word(rt: &HostRuntime, text: &[u8]) {
    let _ = rt.write_all(text);
}

// A number, and a space before it.
pub fn number(rt: &HostRuntime, n: u64) {
    word(rt, b" ");
    let _ = rt.print(n);
}

// A slot of a share list.
fn slot(rt: &HostRuntime, x: u16) {
    number(rt, x as u64);
}

// A line of a name.
pub fn title(rt: &HostRuntime, name: &[u8]) {
    word(rt, name);
    word(rt, b"\n");
}

// The first `count` slots of a share list.
fn first_slots(rt: &HostRuntime, list: &[u16], count: usize) {
    for i in 0..count {
        if i < list.len() {
            slot(rt, list[i]);
        }
    }
}

// A line of the first `count` slots of a share list.
pub fn slots(rt: &HostRuntime, list: &[u16], count: usize) {
    word(rt, b"slots");
    first_slots(rt, list, count);
    word(rt, b"\n");
}

// A line of a word and a number.
pub fn line(rt: &HostRuntime, text: &[u8], n: u64) {
    word(rt, text);
    number(rt, n);
    word(rt, b"\n");
}

// A floor, with its sign.
fn floor(rt: &HostRuntime, x: i64) {
    if x < 0 {
        word(rt, b"floor -");
        let _ = rt.print((-1 - x) as u64 + 1);
        word(rt, b"\n");
        return;
    }
    line(rt, b"floor", x as u64);
}

// What a verdict carries, on a line of its own.
pub fn carried(rt: &HostRuntime, v: Verdict) {
    match v {
        Verdict::Within => (),
        Verdict::Beyond(x) => floor(rt, x),
        Verdict::Spent(x) => line(rt, b"shortfall", x),
    }
}

// The name of a verdict.
fn verdict(rt: &HostRuntime, v: Verdict) {
    match v {
        Verdict::Within => word(rt, b"within"),
        Verdict::Beyond(_) => word(rt, b"beyond"),
        Verdict::Spent(_) => word(rt, b"spent"),
    }
}

// An answer: a line of the verdict, the steps, W, E and G, and a line of what the verdict carries.
pub fn answer(rt: &HostRuntime, a: Answer) {
    let v = a.verdict;
    verdict(rt, v);
    number(rt, a.steps as u64);
    number(rt, a.weight as u64);
    number(rt, a.distance);
    number(rt, a.gap);
    word(rt, b"\n");
    carried(rt, v);
}

// The number of a refusal.
pub fn refused(rt: &HostRuntime, n: u32) {
    line(rt, b"refused", n as u64);
}

// The number of a refusal, 0 where there is none.
pub fn refusal_number<T: Copy>(found: Result<T, Refusal>) -> u64
    ensures { result ≡ refusal_number found }
{
    match found {
        Ok(_) => 0,
        Err(refusal) => refusal.number() as u64,
    }
}

// An answer, or the number that refuses.
pub fn outcome(rt: &HostRuntime, found: Result<Answer, u32>) {
    match found {
        Err(n) => refused(rt, n),
        Ok(a) => answer(rt, a),
    }
}

// What a search gives back.
pub fn searched(rt: &HostRuntime, found: Result<Answer, Refusal>) {
    match found {
        Err(refusal) => outcome(rt, Err(refusal.number())),
        Ok(a) => outcome(rt, Ok(a)),
    }
}
