// How a verdict is found, whether it ends a run, and its number on a card.
//
// Helpers for other crates. judge has a requirement, which its callers prove; stops and verdict_number ask nothing.
#![tactic(auto)]

ghost use Rattle.std.specs.Prelude.{◌≡◌, ◌<◌};
ghost use Rattle.method.specs.declared.Test.TheVariants.{Sharper};
ghost use Rattle.method.specs.Answers.{is_beyond, verdict, verdict_number, stops};
ghost use Rattle.verdicts.specs.Sizes.{Judgeable};
ghost use Rattle.files.specs.Limits.{sum_limit};

use method::{Test, Verdict};

// The sharper test: whether e is above g, and the square of e - g above the limit times e.
fn is_far(limit: u64, e: u64, g: u64) -> bool
    ensures { result ≡ is_beyond Sharper limit e g }
{
    if e <= g {
        return false;
    }
    let d = e - g;
    wide_products::product_below(limit, e, d, d)
}

// Whether the test says Beyond. Where the former does, so does the sharper: only where it does not are products of 128 bits compared.
fn is_beyond(test: Test, limit: u64, e: u64, g: u64) -> bool
    requires { (limit < sum_limit) × (g < sum_limit) }
    ensures { result ≡ is_beyond test limit e g }
{
    if limit + 2 * g < e {
        return true;
    }
    match test {
        Test::Former => false,
        Test::Sharper => is_far(limit, e, g),
    }
}

// The verdict of E and G over the total w, by the test.
pub fn judge(test: Test, tolerance: u32, w: u32, e: u64, g: u64) -> Verdict
    requires { Judgeable tolerance w e g }
    ensures { result ≡ verdict test tolerance w e g }
{
    let limit = tolerance as u64 * (w as u64 * w as u64);
    if e <= limit {
        return Verdict::Within;
    }
    if is_beyond(test, limit, e, g) {
        return Verdict::Beyond(e as i64 - (2 * g) as i64);
    }
    Verdict::Spent(e - limit)
}

// Whether a run of `steps` steps stops after step `t` with this verdict.
pub fn stops(steps: u32, t: u32, v: Verdict) -> bool
    ensures { result ≡ stops steps t v }
{
    match v {
        Verdict::Within => true,
        Verdict::Beyond(_) => true,
        Verdict::Spent(_) => t == steps,
    }
}

// The verdict's number on a card.
pub fn verdict_number(v: Verdict) -> u32
    ensures { result ≡ verdict_number v }
{
    match v {
        Verdict::Within => 1,
        Verdict::Beyond(_) => 2,
        Verdict::Spent(_) => 3,
    }
}
