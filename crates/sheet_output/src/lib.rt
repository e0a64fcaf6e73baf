// A sheet's bytes put into a buffer: its values from the first byte on, in the edition WSH2 its factors, then its trailer.
//
// Helpers for other crates, whose callers prove what they require: put_values, put_sheet_trailer, put_factored_trailer; bits_of asks nothing.
#![tactic(auto)]

ghost use Rattle.std.specs.Prelude.{◌≡◌, true, ◌+◌, ◌*◌, ◌≤◌, length, take};
ghost use Rattle.files.specs.Bytes.{all_in_range};
ghost use Rattle.files.specs.Sheet.{WSH1, WSH2};
ghost use Rattle.buffers.specs.Placed.{placed};
ghost use Rattle.sheet_output.specs.Output.{bits, values_bytes, sheet_trailer};

use buffers::{put, put_bytes};

// The 16 bits of a value.
pub fn bits_of(value: i16) -> u64
    ensures { result ≡ bits value }
{
    (value as i64 + 65536) as u64 % 65536
}

// The first `count` values, from the buffer's first byte on.
pub fn put_values(output: &mut [u8], values: [i16; 64], count: usize)
    requires count_bound { (count ≤ 64) × (2 * count ≤ length output.old) }
    requires values_value { all_in_range (take count values) ≡ true }
    ensures { output.new ≡ placed output.old 0 (values_bytes (take count values)) }
{
    for i in 0..count {
        let value = values[i];
        put(output, 2 * i, 2, bits_of(value));
    }
}

// A trailer with these letters from `at` on.
fn put_trailer(
    output: &mut [u8],
    at: usize,
    columns: usize,
    steps: u32,
    tolerance: u32,
    letters: &[u8; 4],
)
    requires { at + 16 ≤ length output.old }
    ensures { output.new ≡ placed output.old at (sheet_trailer letters.now at columns steps tolerance) }
{
    put(output, at, 4, at as u64);
    put(output, at + 4, 2, columns as u64);
    put(output, at + 6, 2, steps as u64);
    put(output, at + 8, 4, tolerance as u64);
    put_bytes(output, at + 12, letters);
}

// The trailer of a sheet WSH1 from `at` on, which is also its back count.
pub fn put_sheet_trailer(output: &mut [u8], at: usize, columns: usize, steps: u32, tolerance: u32)
    requires { at + 16 ≤ length output.old }
    ensures { output.new ≡ placed output.old at (sheet_trailer WSH1 at columns steps tolerance) }
{
    put_trailer(output, at, columns, steps, tolerance, b"WSH1");
}

// The trailer of a sheet WSH2 from `at` on, which is also its back count.
pub fn put_factored_trailer(
    output: &mut [u8],
    at: usize,
    columns: usize,
    steps: u32,
    tolerance: u32,
)
    requires { at + 16 ≤ length output.old }
    ensures { output.new ≡ placed output.old at (sheet_trailer WSH2 at columns steps tolerance) }
{
    put_trailer(output, at, columns, steps, tolerance, b"WSH2");
}
