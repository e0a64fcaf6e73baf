// A reading of a scale, which is a double: whether it is within the limit, and its exact value in whole kilograms, from its bits.
//
// Helpers for other crates: is_within_limit asks nothing; of whole_kilograms the callers prove what it requires.
#![tactic(auto)]

ghost use Rattle.std.specs.Prelude.{◌≡◌, true, ◌^◌, ◌≤◌, ◌<◌, nat_abs};
ghost use Rattle.rounding.specs.Rounding.{half_even};
ghost use Rattle.scale_readings.specs.Readings.{within_limit, whole};
ghost use Rattle.scale_readings.specs.Patterns.{magnitude};

// Whether a net is at most 1,048,576 kilograms either way, exactly: neither NaN nor an infinity is.
pub fn is_within_limit(x: f64) -> bool
    ensures { result ≡ within_limit x }
{
    if -1048576.0 <= x {
        return x <= 1048576.0;
    }
    false
}

// The size of a double in whole numbers, halves to even, from its exponent field and its fraction field.
fn rounded_magnitude(exponent: u64, fraction: u64) -> u64
    requires { (exponent ≤ 1074) × (fraction < 2 ^ 52) }
    ensures { (result ≡ half_even (magnitude exponent fraction) (2 ^ 1074)) × (result ≤ 2 ^ 53) }
{
    if exponent < 1022 {
        return 0;
    }
    rounding::half_even(4503599627370496 + fraction, 1u64 << (1075 - exponent))
}

// A net in whole kilograms, halves to even: 1 bit of sign, 11 of exponent and 52 of fraction.
pub fn whole_kilograms(x: f64) -> i64
    requires { within_limit x ≡ true }
    ensures { (result ≡ whole x) × (nat_abs result ≤ 2 ^ 53) }
{
    let bits = f64::to_bits(x);
    let exponent = bits % 9223372036854775808 / 4503599627370496;
    let size = rounded_magnitude(exponent, bits % 4503599627370496);
    rounding::with_sign(9223372036854775808 <= bits, size)
}
