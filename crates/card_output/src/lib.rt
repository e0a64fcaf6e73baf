// A card's bytes put into a buffer.
#![tactic(auto)]

ghost use Rattle.std.specs.Prelude.{◌≡◌, [], ◌∷◌, ◌++◌, ◌+◌, ◌≤◌, length, take};
ghost use Rattle.files.specs.Bytes.{number_bytes};
ghost use Rattle.method.specs.declared.Test.TheVariants.{Sharper};
ghost use Rattle.method.specs.Iterates.{support};
ghost use Rattle.card_format.specs.Format.{pair, pairs, WCD2, trailer_bytes, answer_fields};
ghost use Rattle.buffers.specs.Placed.{placed};

use buffers::{put, put_bytes};
use method::Answer;

// A boat and its share, where the share is not 0; gives back the offset after them.
pub fn put_pair(output: &mut [u8], at: usize, boat: usize, share: u16) -> usize
    requires { at + length (pair boat share) ≤ length output.old }
    ensures value { result ≡ at + length (pair boat share) }
    ensures output_after { output.new ≡ placed output.old at (pair boat share) }
{
    if share == 0 {
        return at;
    }
    put(output, at, 2, boat as u64);
    put(output, at + 2, 2, share as u64);
    at + 4
}

// The pairs of the first `boats` shares, from the buffer's first byte on.
pub fn put_pairs(output: &mut [u8], shares: [u16; 256], boats: usize)
    requires boats_bound { boats ≤ 256 }
    requires shares_in_bounds { length (pairs 0 (take boats shares)) ≤ length output.old }
    ensures { output.new ≡ placed output.old 0 (pairs 0 (take boats shares)) }
{
    let mut at = 0;
    for i in 0..boats {
        at = put_pair(output, at, i, shares[i]);
    }
}

// 1 for a boat that holds shares, else 0.
fn held(share: u16) -> usize
    ensures value { result ≡ support (share ∷ []) }
    ensures upper_bound { result ≤ 1 }
{
    if share == 0 { 0 } else { 1 }
}

// How many of the first `boats` hold shares.
pub fn holding(shares: [u16; 256], boats: usize) -> usize
    requires { boats ≤ 256 }
    ensures value { result ≡ support (take boats shares) }
    ensures upper_bound { result ≤ 256 }
{
    let mut n = 0;
    for i in 0..boats {
        n += held(shares[i]);
    }
    n
}

// The first 12 bytes of a trailer.
fn put_head(output: &mut [u8], at: usize, back: u64, verdict: u64, steps: u64, tolerance: u64)
    requires { at + 12 ≤ length output.old }
    ensures { output.new ≡ placed output.old at (number_bytes 4 back ++ (number_bytes 2 verdict ++ (number_bytes 2 steps ++ number_bytes 4 tolerance))) }
{
    put(output, at, 4, back);
    put(output, at + 4, 2, verdict);
    put(output, at + 6, 2, steps);
    put(output, at + 8, 4, tolerance);
}

// The 24 bytes of a trailer after those.
fn put_rest(output: &mut [u8], at: usize, distance: u64, gap: u64, boats: u64, columns: u64)
    requires { at + 24 ≤ length output.old }
    ensures { output.new ≡ placed output.old at (number_bytes 8 distance ++ (number_bytes 8 gap ++ (number_bytes 2 boats ++ (number_bytes 2 columns ++ WCD2)))) }
{
    put(output, at, 8, distance);
    put(output, at + 8, 8, gap);
    put(output, at + 16, 2, boats);
    put(output, at + 18, 2, columns);
    put_bytes(output, at + 20, b"WCD2");
}

// The trailer from `at` on, which is also its back count: the pairs start at the first byte.
pub fn put_trailer(
    output: &mut [u8],
    at: usize,
    a: Answer,
    tolerance: u32,
    boats: usize,
    columns: usize,
)
    requires { at + 36 ≤ length output.old }
    ensures { output.new ≡ placed output.old at (trailer_bytes Sharper (answer_fields a at tolerance boats columns)) }
{
    let verdict = a.verdict;
    put_head(
        output,
        at,
        at as u64,
        verdicts::verdict_number(verdict) as u64,
        a.steps as u64,
        tolerance as u64,
    );
    put_rest(
        output,
        at + 12,
        a.distance,
        a.gap,
        boats as u64,
        columns as u64,
    );
}
