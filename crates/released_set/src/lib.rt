// The boats that a call may use: whether a boat may be, what refuses a set, and shares passed between the released boats and all boats of a book.
//
// Helpers for other crates, whose callers prove what they require: may_use, count, set_refusal, scatter, gather.
#![tactic(auto)]

ghost use Rattle.std.specs.Prelude.{◌≡◌, ◌++◌, ◌-◌, ◌≤◌, ◌<◌, length, get_or, take, drop, replicate, true, cond};
ghost use Rattle.refusals.specs.Numbers.{refusal_number};
ghost use Rattle.method.specs.ReleasedBoats.{only, usable, may_use, used_from, set_refusal, kept, scatter_from};

use method::Released;
use refusals::Refusal;

// The most boats of a book, and the bits of a set.
const MOST_BOATS: usize = 256;

// Whether a boat may be used.
pub fn may_use(set: Released, boat: usize) -> bool
    requires { boat < 256 }
    ensures { result ≡ may_use (usable set) boat }
{
    if !set.limited {
        return true;
    }
    let bits = set.boats;
    (bits[boat / 8] >> (boat % 8) as u8) % 2 == 1
}

// How many boats from `first` on, below `end`, may be used.
pub fn count(set: Released, first: usize, end: usize) -> usize
    requires { (first ≤ end) × (end ≤ 256) }
    ensures { result ≡ length (used_from (usable set) first (end - first)) }
{
    let mut n: usize = 0;
    for i in first..end {
        if may_use(set, i) {
            n += 1;
        }
    }
    n
}

// Whether a set that is handed in is refused, by 52: it has none of a book's boats, or a boat that the book does not have.
pub fn set_refusal(set: Released, boats: usize) -> Result<(), Refusal>
    requires { boats ≤ 256 }
    ensures { refusal_number result ≡ set_refusal boats (usable set) }
{
    if !set.limited {
        return Ok(());
    }
    if count(set, 0, boats) == 0 {
        return Err(Refusal::ReleasedBoats);
    }
    if count(set, boats, MOST_BOATS) != 0 {
        return Err(Refusal::ReleasedBoats);
    }
    Ok(())
}

// Of a boat that may be used the next share, of another 0.
fn share_of(own: &[u16], next: usize, used: bool) -> u16
    requires { next < length own.now }
    ensures { result ≡ cond used (get_or own.now next 0) 0 }
{
    if used {
        return own[next];
    }
    0
}

// The slots of a book's boats: the shares of `own` in turn for the boats that may be used, 0 for the others. Later slots as they were.
pub fn scatter(own: &[u16], set: Released, boats: usize, slots: &mut [u16])
    requires boats_bound { boats ≤ 256 }
    requires boats_in_bounds { (boats ≤ length own.now) × (boats ≤ length slots.old) }
    ensures { slots.new ≡ scatter_from (usable set) 0 boats own.now ++ drop boats slots.old }
{
    let mut next: usize = 0;
    for i in 0..boats {
        let used = may_use(set, i);
        slots[i] = share_of(own, next, used);
        if used {
            next += 1;
        }
    }
}

// The shares of the boats that may be used, one after the other from the first slot on; 0 behind them.
pub fn gather(shares: [u16; 256], set: Released, boats: usize) -> [u16; 256]
    requires { boats ≤ 256 }
    ensures { result ≡ kept (usable set) 0 (take boats shares) ++ replicate (256 - length (used_from (usable set) 0 boats)) 0 }
{
    let mut own = [0u16; 256];
    let mut next: usize = 0;
    for i in 0..boats {
        if may_use(set, i) {
            own[next] = shares[i];
            next += 1;
        }
    }
    own
}
