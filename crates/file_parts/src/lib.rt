// Tests of the parts of a file: a count or a length between two bounds, a body of values.
//
// Helpers for other crates, whose callers prove what they require: is_between, body_refusal.
#![tactic(auto)]

ghost use Rattle.std.specs.Prelude.{ℕ, ◌≡◌, ◌+◌, ◌*◌, ◌≤◌, ◌<◌, length, drop};
ghost use Rattle.files.specs.Bytes.{value, values, in_range, all_in_range, between, body_refusal};
ghost use Rattle.file_parts.specs.Reasons.{told};

// Whether 16 bits hold a value in range: from -2,000 they count 0 to 4,000.
fn value_in_range(v: u32) -> bool
    requires { v < 65536 }
    ensures { result ≡ in_range (value v) }
{
    (v + 2000) % 65536 <= 4000
}

// Whether the `count` values from `at` are all in range. It looks at every value, so that it can look at several at once.
fn values_in_range(b: &[u8], at: usize, count: usize) -> bool
    requires { at + 2 * count ≤ length b.now }
    ensures { result ≡ all_in_range (values count (drop at b.now)) }
{
    let mut good = true;
    for i in 0..count {
        if !value_in_range(files::u16_at(b, at + 2 * i)) {
            good = false;
        }
    }
    good
}

// Whether `x` is from `least` to `most`.
pub fn is_between(least: usize, most: usize, x: usize) -> bool
    ensures { result ≡ between least most x }
{
    if x < least {
        return false;
    }
    x <= most
}

// Whether a body that is to have `back` bytes, and begins with `count` values, before a trailer of `size` bytes, is refused:
// for `place` where the back count is wrong or reaches too far, for `range` where a value is out of range. The two reasons are the caller's, of any
// type: a Refusal, or numbers.
pub fn body_refusal<R: Copy>(
    b: &[u8],
    size: usize,
    back: usize,
    count: usize,
    place: R,
    range: R,
) -> Result<(), R>
    requires { (4 ≤ size) × (size ≤ length b.now) × (2 * count ≤ back) }
    ensures { (said : R → ℕ) → told said result ≡ body_refusal size back count (said place) (said range) b.now }
{
    let room = b.len() - size;
    let own = files::u32_at(b, room) as usize;
    if own != back {
        return Err(place);
    }
    if room < own {
        return Err(place);
    }
    if values_in_range(b, room - own, count) {
        Ok(())
    } else {
        Err(range)
    }
}
