// Helpers of the test programs that walk a file of cases: the file read, its cases one after another, numbers in it.
#![tactic(auto)]

ghost use Rattle.std.specs.Prelude.{◌<◌};

use test_buffers::{byte_at, u16_at};

// A length of three bytes.
pub fn length_at(cases: &[u8], at: usize) -> usize
    requires { at < 5000000 }
    ensures { result < 16777216 }
{
    u16_at(cases, at) as usize + 65536 * (byte_at(cases, at + 2) as usize)
}

// The 4-byte number at `at`.
pub fn u32_at(cases: &[u8], at: usize) -> u32 {
    (u16_at(cases, at) + 65536 * u16_at(cases, at % 1000000 + 2)) as u32
}

// `count` parts of a file one after another, the first at `start`. The work with a part gives back where the next one starts; so does this
// with the last.
pub fn one_after_another<F: Fn(&HostRuntime, &[u8], usize) -> usize>(
    rt: &HostRuntime,
    cases: &[u8],
    start: usize,
    count: u64,
    part: F,
) -> usize
    requires { F.IsAlwaysCallable part }
{
    let mut at = start;
    for _ in 0..count {
        at = part(rt, cases, at);
    }
    at
}

// The first `count` cases of a file, each behind a line of its number. Gives back what starts behind the last.
pub fn each<F: Fn(&HostRuntime, &[u8], usize) -> usize>(
    rt: &HostRuntime,
    cases: &[u8],
    count: u64,
    case: F,
) -> usize
    requires { F.IsAlwaysCallable case }
{
    let mut at = 0;
    for number in 0..count {
        test_printing::line(rt, b"case", number);
        at = case(rt, cases, at);
    }
    at
}

// Reads a file into a buffer of N bytes, and does the work of a test with what was read.
pub fn with_file<const N: usize, F: FnOnce(&HostRuntime, &[u8])>(
    rt: &HostRuntime,
    name: &[u8],
    work: F,
)
    requires size { N < 1000000 }
    requires callable { F.IsAlwaysCallable work }
{
    let mut cases = [0u8; N];
    let n = file_io::read_file(rt, name, &mut cases);
    work(rt, &cases[..n]);
}
