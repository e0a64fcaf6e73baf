// The moves that work shares over, on files that count every column once: shares go from the boat of greatest score to the boat of
// least, of those that hold some, until the best amount is 0 or the moves allowed are made. The scores are moved with the shares.
//
// Helper for other crates, whose callers prove what it requires: worked_over.
#![tactic(auto)]

ghost use Rattle.std.specs.Prelude.{◌≡◌, ◌++◌, ◌+◌, ◌*◌, ◌≤◌, ◌<◌, pos, ◌-ℤ◌, length, get_or, take, drop};
ghost use Rattle.files.specs.Book.{boats, rows_from};
ghost use Rattle.files.specs.Sheet.{files_refusal};
ghost use Rattle.files.specs.Sheet as Sheets;
ghost use Rattle.files.specs.Limits.{entry_limit};
ghost use Rattle.frank_wolfe.specs.Vectors.{subtract, ones, sum};
ghost use Rattle.method.specs.Problem.{fixed, weight};
ghost use Rattle.method.specs.Plain.{plain_problem};
ghost use Rattle.method.specs.Iterates as Iterates;
ghost use Rattle.sums.specs.Operands.{Bounded, Grid};
ghost use Rattle.iteration.specs.States.{file_layout};
ghost use Rattle.pairwise.specs.Moves as Pairwise;
ghost use Rattle.pairwise.specs.Moves.{greater, less};
ghost use Rattle.pairwise_moves.specs.Passes.{pair_of, ahead, held_moved, Listed, HeldProducts, SlopeSized, Differ, ApartSized, Divisible, Exchangeable, MovableScores};

use iteration::Layout;

// The two boats of a move: `from` gives shares, `to` takes them.
#[derive(Clone, Copy)]
pub struct Pair {
    pub from: usize,
    pub to: usize,
}

// A boat that a pass has found, and its score.
#[derive(Clone, Copy)]
pub struct Found {
    pub boat: usize,
    pub score: i64,
}

// Above every score.
const BEYOND: i64 = 1_000_000_000_000_000_000;

// Boat i where its score is above that of the boat found; else the boat found.
fn higher(found: Found, i: usize, score: i64) -> Found
    ensures { result ≡ ahead greater found i score }
{
    if found.score < score {
        return Found { boat: i, score };
    }
    found
}

// Boat i where its score is below that of the boat found; else the boat found.
fn lower(found: Found, i: usize, score: i64) -> Found
    ensures { result ≡ ahead less found i score }
{
    if score < found.score {
        return Found { boat: i, score };
    }
    found
}

// How far the greatest score is above the least.
fn slope_of(greatest: i64, least: i64) -> u64
    requires { SlopeSized greatest least }
    ensures { pos result ≡ greatest -ℤ least }
{
    (greatest - least) as u64
}

// How far a boat's product in the row at `takes` of the memory is above that in the row at `gives`.
fn above(memory: &[i32], takes: usize, gives: usize, i: usize) -> i32
    requires { Differ memory.now takes gives i }
    ensures { result ≡ get_or memory.now (takes + i) (pos 0) -ℤ get_or memory.now (gives + i) (pos 0) }
{
    memory[takes + i] - memory[gives + i]
}

// |v - s|² = <s - v, s> - <s - v, v>, where the row at `gives` of the memory has the products of the row v of `from`, less any row, with
// every row, and that at `takes` those of the row s of `to`, less the same.
fn apart_of(memory: &[i32], takes: usize, gives: usize, from: usize, to: usize) -> u64
    requires { ApartSized memory.now takes gives from to }
    ensures { pos result ≡ (get_or memory.now (takes + to) (pos 0) -ℤ get_or memory.now (gives + to) (pos 0)) -ℤ (get_or memory.now (takes + from) (pos 0) -ℤ get_or memory.now (gives + from) (pos 0)) }
{
    let far = above(memory, takes, gives, to);
    let near = above(memory, takes, gives, from);
    (far - near) as u64
}

// How many shares move: none where the scores are equal; else the whole number nearest to slope / apart, halves down, at most those held.
// The quotient may be wider than 32 bits, so the least of the two is taken before it is made narrow.
fn amount_of(slope: u64, apart: u64, held: u16) -> u32
    requires { Divisible slope apart }
    ensures { result ≡ Pairwise.amount_of slope apart held }
{
    if slope == 0 {
        return 0;
    }
    let nearest = (2 * slope + apart - 1) / (2 * apart);
    if nearest < held as u64 {
        return nearest as u32;
    }
    held as u32
}

// m shares go from one boat to another.
fn exchange(shares: &mut [u16], from: usize, to: usize, m: u32)
    requires { Exchangeable shares.old from to m }
    ensures { shares.new ≡ Pairwise.exchange from to m shares.old }
{
    shares[from] -= m as u16;
    shares[to] += m as u16;
}

// The score <r, v> of each of the rows v at `at`, in the first slots of `to`.
fn put_scores(r: &[i32], book: &[u8], at: usize, boats: usize, columns: usize, to: &mut [i64])
    requires grid { Grid book.now at boats columns }
    requires bounded { Bounded entry_limit columns r.now }
    requires boats_in_bounds { boats ≤ length to.old }
    ensures { to.new ≡ Iterates.scores (ones columns) (take columns r.now) (rows_from boats columns (drop at book.now)) ++ drop boats to.old }
{
    let mut row = at;
    for i in 0..boats {
        to[i] = sums::inner_at(r, book, row, columns);
        row += 2 * columns;
    }
}

// The first boats that hold shares, in order, and the number of boats behind them.
fn list_held(shares: &[u16], boats: usize, list: &mut [usize])
    requires { (boats ≤ length shares.now) × (boats < length list.old) }
    ensures { Listed shares.now boats list.new }
{
    let mut count = 0;
    for i in 0..boats {
        if shares[i] != 0 {
            list[count] = i;
            count += 1;
        }
    }
    list[count] = boats;
}

// For each boat that holds shares the products of its row less the target with every row, in slots of the memory that are the boat's,
// as many as there are boats.
fn remember_held(shares: &[u16], book: &[u8], sheet: &[u8], layout: Layout, memory: &mut [i32])
    requires sheet_value { files_refusal book.now sheet.now ≡ 0 }
    requires layout_value { layout ≡ file_layout book.now sheet.now }
    requires book_in_bounds { boats book.now ≤ length shares.now }
    requires book_in_bounds_2 { boats book.now * boats book.now ≤ length memory.old }
    ensures { HeldProducts book.now sheet.now shares.now memory.new }
{
    let boats = layout.boats;
    for i in 0..boats {
        if shares[i] != 0 {
            let at = i * boats;
            iteration::products_of(i, book, sheet, layout, &mut memory[at..]);
        }
    }
}

// Moves the scores of the boats that hold shares by m times what their products in the row at `takes` of the memory are above those
// in the row at `gives`. Of these boats it gives the one of greatest score and the one of least, the lowest-numbered of equals; where
// none holds any, boat 0 twice. The list has every boat that holds shares, in order, and the number of boats behind them.
fn rescored(
    scores: &mut [i64],
    shares: &[u16],
    list: &[usize],
    boats: usize,
    m: u32,
    memory: &[i32],
    takes: usize,
    gives: usize,
) -> Pair
    requires listed { Listed shares.now boats list.now }
    requires movable_scores { MovableScores scores.old shares.now boats m memory.now takes gives }
    ensures scores_after { scores.new ≡ held_moved m (take boats shares.now) (subtract (take boats (drop takes memory.now)) (take boats (drop gives memory.now))) (take boats scores.old) ++ drop boats scores.old }
    ensures value { result ≡ pair_of (take boats shares.now) (take boats scores.new) }
{
    let mut most = Found {
        boat: 0,
        score: -BEYOND,
    };
    let mut least = Found {
        boat: 0,
        score: BEYOND,
    };
    let mut j = 0;
    let mut i = list[0];
    while i < boats {
        if shares[i] != 0 {
            let product = above(memory, takes, gives, i);
            let score = scoring::moved_score(scores[i], m, product);
            scores[i] = score;
            most = higher(most, i, score);
            least = lower(least, i, score);
        }
        j += 1;
        i = list[j];
    }
    Pair {
        from: most.boat,
        to: least.boat,
    }
}

// The first shares, one a boat, after at most so many moves, up to the first whose amount is 0; later slots as they were. The shares
// total what the sheet's steps give. A move of no shares finds the first two boats.
pub fn worked_over(
    book: &[u8],
    sheet: &[u8],
    layout: Layout,
    shares: [u16; 256],
    allowed: u32,
) -> [u16; 256]
    requires sheet_value { files_refusal book.now sheet.now ≡ 0 }
    requires layout_value { layout ≡ file_layout book.now sheet.now }
    requires shares_value { sum (take (boats book.now) shares) ≡ weight fixed (Sheets.sheet sheet.now).steps }
    ensures { result ≡ Pairwise.moves allowed (plain_problem fixed book.now sheet.now) (take (boats book.now) shares) ++ drop (boats book.now) shares }
{
    let boats = layout.boats;
    let r = mixture_answer::residual_of(book, sheet, layout, shares);
    let mut scores = [0i64; 256];
    put_scores(&r, book, layout.rows, boats, layout.columns, &mut scores);
    let mut held = shares;
    let mut list = [0usize; 257];
    list_held(&held, boats, &mut list);
    let mut memory = [0i32; 65536];
    remember_held(&held, book, sheet, layout, &mut memory);
    let none = [0i32; 256];
    let mut pair = rescored(&mut scores, &held, &list, boats, 0, &none, 0, 0);
    for made in 0..allowed {
        let from = pair.from;
        let to = pair.to;
        let gives = from * boats;
        let takes = to * boats;
        let apart = apart_of(&memory, takes, gives, from, to);
        let slope = slope_of(scores[from], scores[to]);
        let m = amount_of(slope, apart, held[from]);
        if m == 0 {
            return held;
        }
        exchange(&mut held, from, to, m);
        pair = rescored(&mut scores, &held, &list, boats, m, &memory, takes, gives);
    }
    held
}
