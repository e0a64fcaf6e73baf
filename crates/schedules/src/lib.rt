// The shares of a run: 1, 2, 3, .., or the entries of a table that is lent. A table that is lent is passed as `Some`.
//
// Helpers for other crates, whose callers prove what they require: refusal, steps, share, total.
#![tactic(auto)]

ghost use Rattle.files.specs.declared.TheConstants.{MOST_STEPS};
ghost use Rattle.std.specs.Prelude.{◌≡◌, ◌&&◌, ◌*◌, ◌≤◌, ◌<◌, ltb, leb, length, take, option_copied};
ghost use Rattle.frank_wolfe.specs.Vectors.{sum};
ghost use Rattle.method.specs.Problem.{share, weight, allowed_steps};
ghost use Rattle.method.specs.Calls.{table_refusal, schedule_refusal, schedule_in};
ghost use Rattle.refusals.specs.Numbers.{refusal_number};

use refusals::Refusal;

// An entry of a table.
fn wide(entry: u16) -> u32
    ensures { (result ≡ entry) × (result < 65536) }
{
    entry as u32
}

// Whether an entry is above 0, and its square at most twice the running total that includes it.
fn entry_fits(entry: u32, total: u32) -> bool
    requires { (entry < 65536) × (total < 2147483648) }
    ensures { result ≡ ltb 0 entry && leb (entry * entry) (2 * total) }
{
    if entry == 0 {
        return false;
    }
    entry * entry <= 2 * total
}

// Whether a table is refused, by 49 to 51.
fn table_refusal(table: &[u16]) -> Result<(), Refusal>
    ensures { refusal_number result ≡ table_refusal table.now }
{
    if !file_parts::is_between(1, files::MOST_STEPS as usize, table.len()) {
        return Err(Refusal::TableLength);
    }
    let mut total: u32 = 0;
    for i in 0..table.len() {
        let entry = wide(table[i]);
        total += entry;
        if !entry_fits(entry, total) {
            return Err(Refusal::TableShare);
        }
    }
    if total > 64980 {
        return Err(Refusal::TableTotal);
    }
    Ok(())
}

// Whether a table that is lent is refused, by 49 to 51.
pub fn refusal(table: Option<&[u16]>) -> Result<(), Refusal>
    ensures { refusal_number result ≡ schedule_refusal (schedule_in (option_copied table.entry)) }
{
    match table {
        Some(entries) => table_refusal(entries),
        None => Ok(()),
    }
}

// How many of so many steps may be taken: no more than a lent table has entries.
pub fn steps(table: Option<&[u16]>, asked: u32) -> u32
    ensures { result ≡ allowed_steps (schedule_in (option_copied table.entry)) asked }
{
    if let Some(entries) = table {
        if entries.len() < asked as usize {
            return entries.len() as u32;
        }
    }
    asked
}

// The share of step k + 1.
pub fn share(table: Option<&[u16]>, k: u32) -> u32
    requires { k < allowed_steps (schedule_in (option_copied table)) MOST_STEPS }
    ensures { result ≡ share (schedule_in (option_copied table.entry)) k }
{
    match table {
        Some(entries) => wide(entries[k as usize]),
        None => k + 1,
    }
}

// The total of the first entries of a table.
fn entries_total(table: &[u16], count: usize) -> u32
    requires { (count ≤ MOST_STEPS) × (count ≤ length table.now) }
    ensures { result ≡ sum (take count table.now) }
{
    let mut total: u32 = 0;
    for i in 0..count {
        total += wide(table[i]);
    }
    total
}

// W: the total of the first t shares.
pub fn total(table: Option<&[u16]>, t: u32) -> u32
    requires { t ≤ allowed_steps (schedule_in (option_copied table)) MOST_STEPS }
    ensures { result ≡ weight (schedule_in (option_copied table.entry)) t }
{
    match table {
        Some(entries) => entries_total(entries, t as usize),
        None => totals::total_after(t),
    }
}
