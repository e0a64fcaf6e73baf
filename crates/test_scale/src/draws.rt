// Drawn cells: doubles of every exponent, subnormal ones, zeros, halves at both roundings, the limits and their neighbours,
// infinities and NaN. tests/expected/test_scale.py makes the same draws.
use scale_cells::{Cell, ScaleCell, Weighing};
use test_samples::draw;

// The bits of the second double below 1,048,576, and of the second below 2,000.5.
const LIMIT: u64 = 4697254411347427326;

const LARGEST: u64 = 4656513107491815422;

const UNITS: [u64; 4] = [0, 1, 10000, 10001];

const STEPS: [u32; 4] = [0, 1, 360, 361];

// The double of an exponent field below 2,047 and a fraction field.
fn of_fields(exponent: u64, fraction: u64) -> f64 {
    f64::from_bits(exponent % 2047 * 4503599627370496 + fraction % 4503599627370496)
}

// A fraction field.
fn fraction(seed: &mut u64) -> u64 {
    let high = draw(seed, 67108864) % 67108864;
    high * 67108864 + draw(seed, 67108864) % 67108864
}

// The double of some bits, or one of the next four.
fn near(seed: &mut u64, bits: u64) -> f64 {
    let n = bits % 9218868437227405312 + draw(seed, 5) % 5;
    of_fields(n / 4503599627370496, n % 4503599627370496)
}

// So many eighths.
fn eighths(n: u64) -> f64 {
    ((n % 16777216) as u32) as f64 * 0.125
}

// A size by its kind.
fn size(seed: &mut u64, kind: u64) -> f64 {
    match kind {
        0 => of_fields(draw(seed, 2047), fraction(seed)),
        1 => of_fields(draw(seed, 3), fraction(seed)),
        2 => eighths(draw(seed, 16777216)),
        3 => eighths(draw(seed, 8192) % 8192 * 4),
        4 => near(seed, LIMIT),
        5 => near(seed, LARGEST),
        6 => 0.0,
        7 => 1.0 / 0.0,
        8 => 0.0 / 0.0,
        _ => eighths(draw(seed, 32768)),
    }
}

// A reading of either sign.
fn reading(seed: &mut u64) -> f64 {
    let kind = draw(seed, 10);
    let sign = draw(seed, 2);
    let x = size(seed, kind);
    if sign == 0 { x } else { -x }
}

// The kilograms of a unit.
fn unit(seed: &mut u64) -> u64 {
    let kind = draw(seed, 6);
    let i = (draw(seed, 4) % 4) as usize;
    match kind {
        0 => 1,
        1 => 2,
        2 => 10,
        3 => draw(seed, 40) % 40 + 1,
        4 => draw(seed, 10003),
        _ => UNITS[i],
    }
}

// One cell: one in eight is unweighed, half of them are a net.
fn cell(seed: &mut u64) -> ScaleCell {
    let kind = draw(seed, 8);
    let first = reading(seed);
    let second = reading(seed);
    let unit = (unit(seed) % 65536) as u32;
    let cell = if kind == 0 {
        Cell::Unweighed
    } else if kind < 5 {
        Cell::Net(first)
    } else {
        Cell::Weighed(Weighing {
            gross: first,
            tare: second,
        })
    };
    ScaleCell { cell, unit }
}

// The cells of so many columns, the others unweighed.
pub fn cells(seed: &mut u64, columns: u64) -> [ScaleCell; 64] {
    let mut cells = [ScaleCell {
        cell: Cell::Unweighed,
        unit: 0,
    }; 64];
    for i in 0..64 {
        if (i as u64) < columns {
            let s = cell(seed);
            cells[i] = s;
        }
    }
    cells
}

// 1 in most cases, 64 in a few.
pub fn columns(seed: &mut u64) -> u64 {
    let kind = draw(seed, 4);
    let n = draw(seed, 5) % 5 + 1;
    let all = draw(seed, 20);
    if kind != 0 {
        return 1;
    }
    if all == 0 { 64 } else { n }
}

// Steps, at a limit or past it in a quarter of the cases.
pub fn steps(seed: &mut u64) -> u32 {
    let kind = draw(seed, 4);
    let i = (draw(seed, 4) % 4) as usize;
    let n = draw(seed, 360) % 360 + 1;
    if kind == 0 { STEPS[i] } else { n as u32 }
}

// A tolerance, the largest or one more in a quarter of the cases.
pub fn tolerance(seed: &mut u64) -> u32 {
    let kind = draw(seed, 8);
    let n = draw(seed, 1000) % 1000;
    match kind {
        0 => 1024000000,
        1 => 1024000001,
        _ => n as u32,
    }
}
