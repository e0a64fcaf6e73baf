// Sums over the columns of a fleet book or a sheet, read by offset from the bytes: inner products, squares, the move of the residual.
// All functions are helpers for other crates, whose callers prove what they require.
#![tactic(auto)]

ghost use Rattle.std.specs.Prelude.{◌≡◌, ◌++◌, ◌*◌, ◌≤◌, length, take, drop, pos, nat_abs, ◌+ℤ◌, ◌-ℤ◌, ◌*ℤ◌};
ghost use Rattle.files.specs.Bytes.{values};
ghost use Rattle.files.specs.Limits.{entry_limit};
ghost use Rattle.frank_wolfe.specs.Vectors.{add, subtract, scale, inner, squared_norm};
ghost use Rattle.sums.specs.Operands.{Bounded, Multipliable, Padded, Span, Movable, GapSized};

// <r, v>, where v is the row of `columns` values at `at`.
pub fn inner_at(r: &[i32], bytes: &[u8], at: usize, columns: usize) -> i64
    requires span { Span bytes.now at columns }
    requires bounded { Bounded entry_limit columns r.now }
    ensures { result ≡ inner (take columns r.now) (values columns (drop at bytes.now)) }
{
    let mut sum: i64 = 0;
    for i in 0..columns {
        sum += r[i] as i64 * files::value_at(bytes, at + 2 * i) as i64;
    }
    sum
}

// <d, v> in 32 bits, where v is the row of `columns` values at `at`.
pub fn narrow_inner(d: &[i16], bytes: &[u8], at: usize, columns: usize) -> i32
    requires span { Span bytes.now at columns }
    requires bounded { Bounded 4000 columns d.now × Multipliable columns d.now (values columns (drop at bytes.now)) }
    ensures { result ≡ inner (take columns d.now) (values columns (drop at bytes.now)) }
{
    let mut sum: i32 = 0;
    for i in 0..columns {
        sum += d[i] as i32 * files::value_at(bytes, at + 2 * i);
    }
    sum
}

// <d, v> of 64 columns, by sixteen: of so many the compiler makes products of eight at a time.
fn wide_inner(d: &[i16], bytes: &[u8], at: usize) -> i32
    requires span { Span bytes.now at 64 }
    requires bounded { Bounded 4000 64 d.now × Multipliable 64 d.now (values 64 (drop at bytes.now)) }
    ensures { result ≡ inner (take 64 d.now) (values 64 (drop at bytes.now)) }
{
    let first = narrow_inner(d, bytes, at, 16);
    let second = narrow_inner(&d[16..], bytes, at + 32, 16);
    let third = narrow_inner(&d[32..], bytes, at + 64, 16);
    let fourth = narrow_inner(&d[48..], bytes, at + 96, 16);
    first + second + third + fourth
}

// <d, v>, where v is the row of `columns` values at `at`, and d is 0 behind them. Where 64 values stand at `at` all of them are
// multiplied, whatever those behind the row are.
pub fn padded_inner(d: &[i16], bytes: &[u8], at: usize, columns: usize) -> i32
    requires span { Span bytes.now at columns }
    requires padded { Padded columns d.now × Bounded 2000 columns (values columns (drop at bytes.now)) }
    ensures { result ≡ inner (take columns d.now) (values columns (drop at bytes.now)) }
{
    if columns > 16 {
        if at + 128 <= bytes.len() {
            return wide_inner(d, bytes, at);
        }
    }
    narrow_inner(d, bytes, at, columns)
}

// The square of a number.
fn square(x: i32) -> u64
    requires { nat_abs x ≤ entry_limit }
    ensures { result ≡ nat_abs x * nat_abs x }
{
    let z = x as i64;
    (z * z) as u64
}

// The sum of the squares of the first `columns` numbers.
pub fn squared_norm(r: &[i32], columns: usize) -> u64
    requires columns_bound { columns ≤ 64 }
    requires bounded { Bounded entry_limit columns r.now }
    ensures { result ≡ squared_norm (take columns r.now) }
{
    let mut sum: u64 = 0;
    for i in 0..columns {
        sum += square(r[i]);
    }
    sum
}

// The residual r moved by k (v - u): v is the row at `at` of a book, u the target at `from` of a sheet.
pub fn moved(
    r: [i32; 64],
    book: &[u8],
    at: usize,
    sheet: &[u8],
    from: usize,
    columns: usize,
    k: u32,
) -> [i32; 64]
    requires span { Span book.now at columns }
    requires span_2 { Span sheet.now from columns }
    requires movable { Movable r (values columns (drop at book.now)) (values columns (drop from sheet.now)) columns k }
    ensures { result ≡ add (take columns r) (scale k (subtract (values columns (drop at book.now)) (values columns (drop from sheet.now)))) ++ drop columns r }
{
    let mut next = r;
    for j in 0..columns {
        let d = files::value_at(book, at + 2 * j) - files::value_at(sheet, from + 2 * j);
        next[j] += k as i32 * d;
    }
    next
}

// v - u in the first slots of `to`, where v is the row at `at` of a book and u the target at `from` of a sheet.
pub fn difference(book: &[u8], at: usize, sheet: &[u8], from: usize, columns: usize, to: &mut [i16])
    requires span { Span book.now at columns }
    requires span_2 { Span sheet.now from columns }
    requires bounded { Bounded 2000 columns (values columns (drop at book.now)) × Bounded 2000 columns (values columns (drop from sheet.now)) }
    requires columns_in_bounds { columns ≤ length to.old }
    ensures { to.new ≡ subtract (values columns (drop at book.now)) (values columns (drop from sheet.now)) ++ drop columns to.old }
{
    for i in 0..columns {
        to[i] = (files::value_at(book, at + 2 * i) - files::value_at(sheet, from + 2 * i)) as i16;
    }
}

// G of a residual r of total w: E + w (<r, u> - the least score).
pub fn gap_of(e: u64, w: u32, target_score: i64, least: i64) -> u64
    requires { GapSized e w target_score least }
    ensures { pos result ≡ pos e +ℤ pos w *ℤ (target_score -ℤ least) }
{
    (e as i64 + w as i64 * (target_score - least)) as u64
}
