// A quotient rounded to the nearest whole number, halves to even.
//
// Helpers for other crates, whose callers prove what they require: half_even of two unsigned numbers, rounded of a signed one
// and an unsigned one.
#![tactic(auto)]

ghost use Rattle.std.specs.Prelude.{◌≡◌, ◌+◌, ◌^◌, ◌≤◌, ◌<◌, nat_abs};
ghost use Rattle.rounding.specs.Rounding.{half_even, signed, rounded};

// n / d to the nearest whole number, halves to even.
pub fn half_even(n: u64, d: u64) -> u64
    requires { (0 < d) × (n < 2 ^ 63) }
    ensures { (result ≡ half_even n d) × (result ≤ n + 1) }
{
    let q = n / d;
    let rest = n % d;
    let short = d - rest;
    if rest < short {
        return q;
    }
    if short < rest {
        return q + 1;
    }
    q + q % 2
}

// A size with its sign.
pub fn with_sign(negative: bool, size: u64) -> i64
    requires { size ≤ 2 ^ 53 + 1 }
    ensures { result ≡ signed negative size }
{
    if negative {
        return 0 - (size as i64);
    }
    size as i64
}

// n / d to the nearest whole number, halves to even, of either sign.
pub fn rounded(n: i64, d: u32) -> i64
    requires { (0 < d) × (nat_abs n ≤ 2 ^ 53) }
    ensures { result ≡ rounded n d }
{
    if n < 0 {
        return with_sign(true, half_even((0 - n) as u64, d as u64));
    }
    with_sign(false, half_even(n as u64, d as u64))
}
