// The scores of the boats, from the rows of a fleet book or moved from step to step, the boat of least score, and the boat that a step picks.
// All functions are helpers for other crates, whose callers prove what they require.
#![tactic(auto)]

ghost use Rattle.std.specs.Prelude.{◌≡◌, ◌++◌, ◌≤◌, length, take, drop, pos, ◌+ℤ◌, ◌*ℤ◌};
ghost use Rattle.files.specs.Book.{rows_from};
ghost use Rattle.files.specs.Limits.{entry_limit};
ghost use Rattle.frank_wolfe.specs.Vectors.{add, scale, ones};
ghost use Rattle.method.specs.Iterates.{scores};
ghost use Rattle.sums.specs.Operands.{Bounded, Padded, Grid, RowsBounded, ScoreSized, Rescorable};
ghost use Rattle.scoring.specs.Scores.{least_of, pick_of, Pickable};

// A boat of least score, and its score.
#[derive(Clone, Copy)]
pub struct Least {
    pub boat: usize,
    pub score: i64,
}

// One pass over the rows at `at`: the boat of least score <r, v>, where v is the boat's row; the lowest-numbered of equals.
pub fn least_score(r: &[i32], book: &[u8], at: usize, boats: usize, columns: usize) -> Least
    requires grid { Grid book.now at boats columns }
    requires bounded { Bounded entry_limit columns r.now }
    ensures { result ≡ least_of (scores (ones columns) (take columns r.now) (rows_from boats columns (drop at book.now))) }
{
    let mut boat = 0;
    let mut score = sums::inner_at(r, book, at, columns);
    let mut p = at + 2 * columns;
    for i in 1..boats {
        let s = sums::inner_at(r, book, p, columns);
        if s < score {
            boat = i;
            score = s;
        }
        p += 2 * columns;
    }
    Least { boat, score }
}

// <d, v> for each of the rows v at `at`, in the first slots of `to`. d is 0 behind the columns.
pub fn products(d: &[i16], book: &[u8], at: usize, boats: usize, columns: usize, to: &mut [i32])
    requires grid { Grid book.now at boats columns }
    requires padded { Padded columns d.now }
    requires rows_bounded { RowsBounded (rows_from boats columns (drop at book.now)) columns }
    requires boats_in_bounds { boats ≤ length to.old }
    ensures { to.new ≡ scores (ones columns) (take columns d.now) (rows_from boats columns (drop at book.now)) ++ drop boats to.old }
{
    let mut row = at;
    for i in 0..boats {
        to[i] = sums::padded_inner(d, book, row, columns);
        row += 2 * columns;
    }
}

// The boat of least product, of the first products, one a boat; the lowest-numbered of equals.
pub fn least_product(products: &[i32], boats: usize) -> Least
    requires { (1 ≤ boats) × Bounded 512000000 boats products.now }
    ensures { result ≡ least_of (take boats products.now) }
{
    let mut boat = 0;
    let mut least = products[0];
    for i in 1..boats {
        let product = products[i];
        if product < least {
            boat = i;
            least = product;
        }
    }
    Least {
        boat,
        score: least as i64,
    }
}

// A score moved by k times a product.
pub fn moved_score(score: i64, k: u32, product: i32) -> i64
    requires { ScoreSized score k product }
    ensures { result ≡ score +ℤ pos k *ℤ product }
{
    score + k as i64 * product as i64
}

// Moves the first scores, one a boat, by k times the products, and gives the boat where they are least.
pub fn rescored(scores: &mut [i64], k: u32, products: &[i32], boats: usize) -> Least
    requires { Rescorable scores.old k products.now boats }
    ensures value { result ≡ least_of (add (take boats scores.old) (scale k (take boats products.now))) }
    ensures scores_after { scores.new ≡ add (take boats scores.old) (scale k (take boats products.now)) ++ drop boats scores.old }
{
    let mut boat = 0;
    let mut least = moved_score(scores[0], k, products[0]);
    for i in 0..boats {
        let score = moved_score(scores[i], k, products[i]);
        scores[i] = score;
        if score < least {
            boat = i;
            least = score;
        }
    }
    Least { boat, score: least }
}

// The boat that a step picks, by the scores and shares, one a boat. `least` is the lowest-numbered of least score: where it holds no
// shares, the first later boat that does, of a score not above its own, goes before it.
pub fn picked(least: Least, scores: &[i64], shares: &[u16], boats: usize) -> Least
    requires pickable { Pickable scores.now shares.now boats }
    requires least_value { least ≡ least_of (take boats scores.now) }
    ensures { result ≡ pick_of (take boats shares.now) (take boats scores.now) }
{
    let boat = least.boat;
    let score = least.score;
    if shares[boat] != 0 {
        return least;
    }
    for i in boat + 1..boats {
        if shares[i] != 0 {
            if scores[i] <= score {
                return Least { boat: i, score };
            }
        }
    }
    least
}
