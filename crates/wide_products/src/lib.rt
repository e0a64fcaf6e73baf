// Products of 128 bits: the whole product of two u64, and the order of two such products.
//
// Helpers for other crates, which ask nothing. No operation overflows or wraps: every sum and product on the way fits a u64.
#![tactic(auto)]

ghost use Rattle.std.specs.Prelude.{◌≡◌, ◌*◌, ltb};
ghost use Rattle.wide_products.specs.Value.{value};

// A number of 128 bits, hi × 2^64 + lo.
#[derive(Clone, Copy)]
pub struct Wide {
    pub hi: u64,
    pub lo: u64,
}

// The whole product of u and v, by halves of 32 bits, column by column with carries.
pub fn product(u: u64, v: u64) -> Wide
    ensures { value result ≡ u * v }
{
    let u0 = u % 4294967296;
    let u1 = u / 4294967296;
    let v0 = v % 4294967296;
    let v1 = v / 4294967296;
    let low = u0 * v0;
    let middle = u1 * v0 + low / 4294967296;
    let next = middle % 4294967296 + u0 * v1;
    let high = u1 * v1 + middle / 4294967296;
    Wide {
        hi: high + next / 4294967296,
        lo: next % 4294967296 * 4294967296 + low % 4294967296,
    }
}

// Whether a is below b.
pub fn below(a: Wide, b: Wide) -> bool
    ensures { result ≡ ltb (value a) (value b) }
{
    if a.hi == b.hi {
        a.lo < b.lo
    } else {
        a.hi < b.hi
    }
}

// Whether the product of a and b is below that of c and d.
pub fn product_below(a: u64, b: u64, c: u64, d: u64) -> bool
    ensures { result ≡ ltb (a * b) (c * d) }
{
    below(product(a, b), product(c, d))
}
