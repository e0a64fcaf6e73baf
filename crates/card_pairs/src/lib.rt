// A card's pairs of boat and share tested and read, and the total of shares.
//
// Helpers for other crates: pairs_in_order, shares_of and total, whose callers prove what they require; wide asks nothing.
#![tactic(auto)]

ghost use Rattle.std.specs.Prelude.{◌≡◌, true, ◌&&◌, ◌+◌, ◌*◌, ◌≤◌, ◌<◌, ltb, leb, length, take, drop, replicate};
ghost use Rattle.frank_wolfe.specs.Vectors.{sum};
ghost use Rattle.card_format.specs.Format.{shares_into};
ghost use Rattle.card_format.specs.Checks.{pairs_in_order};

// Whether a pair's boat is from `next` on and below `boats`, and its share is not 0.
fn pair_fits(next: usize, boats: usize, boat: usize, share: u32) -> bool
    ensures { result ≡ leb next boat && (ltb boat boats && ltb 0 share) }
{
    if boat < next {
        return false;
    }
    if boats <= boat {
        return false;
    }
    0 < share
}

// Whether the `count` pairs from `at` on are of boats below `boats` in ascending order, with no share of 0.
pub fn pairs_in_order(card: &[u8], at: usize, count: usize, boats: usize) -> bool
    requires { at + 4 * count ≤ length card.now }
    ensures { result ≡ pairs_in_order count 0 boats (drop at card.now) }
{
    let mut next = 0;
    for i in 0..count {
        let boat = files::u16_at(card, at + 4 * i) as usize;
        let share = files::u16_at(card, at + 4 * i + 2);
        if !pair_fits(next, boats, boat, share) {
            return false;
        }
        next = boat + 1;
    }
    true
}

// The shares of the `count` pairs from `at` on, one a boat.
pub fn shares_of(card: &[u8], at: usize, count: usize) -> [u16; 256]
    requires count_in_bounds { at + 4 * count ≤ length card.now }
    requires card_value { pairs_in_order count 0 256 (drop at card.now) ≡ true }
    ensures { result ≡ shares_into count (drop at card.now) (replicate 256 0) }
{
    let mut shares = [0u16; 256];
    for i in 0..count {
        let boat = files::u16_at(card, at + 4 * i) as usize;
        shares[boat] = files::u16_at(card, at + 4 * i + 2) as u16;
    }
    shares
}

// A share in a wider type.
pub fn wide(x: u16) -> u32
    ensures value { result ≡ x }
    ensures upper_bound { result < 65536 }
{
    x as u32
}

// The total of the first `boats` shares.
pub fn total(shares: [u16; 256], boats: usize) -> u32
    requires { boats ≤ 256 }
    ensures { result ≡ sum (take boats shares) }
{
    let mut sum: u32 = 0;
    for i in 0..boats {
        sum += wide(shares[i]);
    }
    sum
}
