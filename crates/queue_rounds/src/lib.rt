// A queue of sheets run in rounds on one allowance of steps, on plain numbers and slices.
//
// Helpers for other crates: run_plan, which asks nothing of its caller; record_at, whose caller proves what it requires.
#![tactic(auto)]

ghost use Rattle.std.specs.Prelude.{◌≡◌, ◌-◌, ◌*◌, ◌+◌, ◌≤◌, ◌<◌, length, get_or, take, replicate, pos};
ghost use Rattle.frank_wolfe.specs.Vectors.{sum};
ghost use Rattle.refusals.specs.Numbers.{refusal_number};
ghost use Rattle.files.specs.Book.{boats};
ghost use Rattle.sheet_queue.specs.Queue.{blank, sheets_refusal, accepted_ahead, refusal_ahead, refusal_of, accepted_of, filled};
ghost use Rattle.queue_rounds.specs.Plans.{plan_lengths, plan_sheets, sheet_of, own_of, Accepted};
ghost use Rattle.queue_rounds.specs.Outcomes.{outcome, judged_number, judged_accepted};
ghost use Rattle.queue_rounds.specs.Counts.{is_due, taken, Turned, Rounded};
ghost use Rattle.queue_rounds.specs.Work.{no_state, Started, Working, SameRest, ServedAll, Ran};

use iteration::State;
use refusals::Refusal;
use sheet_queue::SheetRecord;

// The sheets of a queue: how many, and the lengths of the first 16.
#[derive(Clone, Copy)]
pub struct Plan {
    pub count: usize,
    pub lengths: [u32; 16],
}

// Why a queue is refused, and how many sheets are accepted ahead of the one that refuses it.
#[derive(Clone, Copy)]
pub struct Refused {
    pub reason: Refusal,
    pub accepted: usize,
}

// What a queue leaves that is not refused: how many records there are, and the records.
#[derive(Clone, Copy)]
pub struct Served {
    pub count: usize,
    pub records: [SheetRecord; 16],
}

// For each sheet the steps that it took and whether it is finished, and what is left of the allowance.
#[derive(Clone, Copy)]
pub struct Rounds {
    pub used: [u32; 16],
    pub finished: [bool; 16],
    pub left: u32,
}

// A queue between two turns: for each sheet its state and its record.
#[derive(Clone, Copy)]
pub struct Work {
    pub rounds: Rounds,
    pub states: [State; 16],
    pub records: [SheetRecord; 16],
}

// ---- The sheets

// A length in a wider type.
fn wide(x: u32) -> usize
    ensures value { result ≡ x }
    ensures upper_bound { result < 4294967296 }
{
    x as usize
}

// The total of the first lengths.
fn total_of(plan: Plan, count: usize) -> usize
    requires { count ≤ 16 }
    ensures value { result ≡ sum (take count plan.lengths) }
    ensures upper_bound { result ≤ 4294967296 * count }
{
    let lengths = plan.lengths;
    let mut n: usize = 0;
    for i in 0..count {
        n += wide(lengths[i]);
    }
    n
}

// Sheet i.
fn sheet_at<'a>(plan: Plan, i: usize, sheets: &'a [u8]) -> &'a [u8]
    requires i_lt_count { (i < plan.count) × (plan.count ≤ 16) }
    requires plan_value { sum (plan_lengths plan) ≡ length sheets.now }
    ensures { result.now ≡ sheet_of plan sheets.now i }
{
    let lengths = plan.lengths;
    let start = total_of(plan, i);
    let end = start + wide(lengths[i]);
    &sheets[start..end]
}

// Judges the sheets for a book of so many columns: the first refused sheet refuses them.
fn judge_sheets(plan: Plan, columns: u32, sheets: &[u8]) -> Result<(), Refused>
    requires count_bound { plan.count ≤ 16 }
    requires plan_value { sum (plan_lengths plan) ≡ length sheets.now }
    ensures refusal_value { judged_number result ≡ sheets_refusal columns (plan_sheets plan sheets.now) }
    ensures accepted_value { judged_accepted plan.count result ≡ accepted_ahead columns (plan_sheets plan sheets.now) }
{
    let count = plan.count;
    for i in 0..count {
        if let Err(reason) = validation::sheet_refusal(sheet_at(plan, i, sheets), columns) {
            return Err(Refused {
                reason,
                accepted: i,
            });
        }
    }
    Ok(())
}

// What refuses the queue ahead of its sheets.
fn refusal_ahead(plan: Plan, book: &[u8], sheets: &[u8], allowance: u32) -> Result<(), Refusal>
    ensures { refusal_number result ≡ refusal_ahead plan.count book.now (plan_lengths plan) sheets.now allowance }
{
    validation::book_refusal(book)?;
    let count = plan.count;
    if !file_parts::is_between(1, sheet_queue::MOST_SHEETS, count) {
        return Err(Refusal::QueueSheets);
    }
    if total_of(plan, count) != sheets.len() {
        return Err(Refusal::QueueSheets);
    }
    if (allowance as usize) < count {
        return Err(Refusal::QueueAllowance);
    }
    if allowance > sheet_queue::MOST_STEPS {
        return Err(Refusal::QueueAllowance);
    }
    Ok(())
}

// What refuses the queue.
fn judge(
    plan: Plan,
    book: &[u8],
    sheets: &[u8],
    allowance: u32,
    slots: usize,
) -> Result<(), Refused>
    ensures refusal_value { judged_number result ≡ refusal_of plan.count book.now (plan_lengths plan) sheets.now allowance slots }
    ensures accepted_value { judged_accepted plan.count result ≡ accepted_of plan.count book.now (plan_lengths plan) sheets.now allowance }
{
    if let Err(reason) = refusal_ahead(plan, book, sheets, allowance) {
        return Err(Refused {
            reason,
            accepted: 0,
        });
    }
    judge_sheets(plan, files::columns(book) as u32, sheets)?;
    if slots < sheet_queue::SLOTS * plan.count {
        return Err(Refused {
            reason: Refusal::ShareSlots,
            accepted: plan.count,
        });
    }
    Ok(())
}

// ---- Turns

// Whether sheet i takes a step when its turn comes.
fn due(q: Rounds, i: usize) -> bool
    requires { i < 16 }
    ensures { result ≡ is_due i q }
{
    let left = q.left;
    let finished = q.finished;
    if left == 0 {
        return false;
    }
    !finished[i]
}

// Counts a step of sheet i, which ended its run or not.
fn took(q: Rounds, i: usize, ended: bool) -> Rounds
    requires { (i < 16) × (0 < q.left) × (get_or q.used i 0 < 360) }
    ensures { result ≡ taken i ended q }
{
    let left = q.left;
    let mut used = q.used;
    let mut finished = q.finished;
    used[i] += 1;
    finished[i] = ended;
    Rounds {
        used,
        finished,
        left: left - 1,
    }
}

// Sheet i's turn.
fn turn(
    work: Work,
    plan: Plan,
    i: usize,
    book: &[u8],
    sheets: &[u8],
    shares: &mut [u16],
    scores: &mut [i64],
) -> Work
    requires i_lt_count { i < plan.count }
    requires working { Working book.now plan sheets.now work shares.old scores.old }
    ensures working_2 { Working book.now plan sheets.now result shares.new scores.new }
    ensures turned { Turned (own_of book.now plan sheets.now) i work.rounds result.rounds }
    ensures same_rest { SameRest book.now plan.count shares.old shares.new }
{
    let rounds = work.rounds;
    if !due(rounds, i) {
        return work;
    }
    let sheet = sheet_at(plan, i, sheets);
    let mut states = work.states;
    let mut records = work.records;
    let at = sheet_queue::SLOTS * i;
    let end = at + sheet_queue::SLOTS;
    let turned = sheet_turn::turn(
        states[i],
        book,
        sheet,
        &mut shares[at..end],
        &mut scores[at..end],
    );
    let state = turned.state;
    let record = turned.record;
    states[i] = state;
    records[i] = record;
    let counted = took(rounds, i, record.finished);
    Work {
        rounds: counted,
        states,
        records,
    }
}

// One round, in queue order.
fn one_round(
    work: Work,
    plan: Plan,
    book: &[u8],
    sheets: &[u8],
    shares: &mut [u16],
    scores: &mut [i64],
) -> Work
    requires { Working book.now plan sheets.now work shares.old scores.old }
    ensures working { Working book.now plan sheets.now result shares.new scores.new }
    ensures rounded { Rounded (own_of book.now plan sheets.now) work.rounds result.rounds }
    ensures same_rest { SameRest book.now plan.count shares.old shares.new }
{
    let count = plan.count;
    let mut next = work;
    for i in 0..count {
        next = turn(next, plan, i, book, sheets, shares, scores);
    }
    next
}

// Rounds, until one takes no step.
fn serve(
    work: Work,
    plan: Plan,
    book: &[u8],
    sheets: &[u8],
    shares: &mut [u16],
    scores: &mut [i64],
) -> [SheetRecord; 16]
    requires working { Working book.now plan sheets.now work shares.old scores.old }
    requires used_value { (work.rounds.used ≡ replicate 16 0) × (plan.count ≤ work.rounds.left) }
    ensures served_all { ServedAll book.now plan sheets.now work.rounds.left result shares.new }
    ensures same_rest { SameRest book.now plan.count shares.old shares.new }
{
    let mut next = work;
    loop {
        let before = next.rounds;
        next = one_round(next, plan, book, sheets, shares, scores);
        let after = next.rounds;
        if after.left == before.left {
            return next.records;
        }
    }
}

// ---- The whole queue

// No share yet: the first slots of each of so many sheets, one a boat, are 0.
fn clear_parts(shares: &mut [u16], count: usize, boats: usize)
    requires { (boats ≤ 256) × (256 * count ≤ length shares.old) }
    ensures { shares.new ≡ filled (replicate count (replicate boats 0)) shares.old }
{
    for i in 0..count {
        let at = sheet_queue::SLOTS * i;
        let end = at + sheet_queue::SLOTS;
        plain_run::clear(&mut shares[at..end], boats);
    }
}

// The first state of each sheet.
fn start_all(plan: Plan, book: &[u8], sheets: &[u8]) -> [State; 16]
    requires { Accepted book.now plan sheets.now }
    ensures { Started book.now plan sheets.now result }
{
    let count = plan.count;
    let none = State {
        steps: 0,
        weight: 0,
        distance: 0,
        target_score: 0,
        best: 0,
        least: 0,
    };
    let mut states = [none; 16];
    for i in 0..count {
        let state = sheet_turn::start(book, sheet_at(plan, i, sheets));
        states[i] = state;
    }
    states
}

// The records of a queue that is not refused, and its shares in the lent list.
fn serve_all(
    plan: Plan,
    book: &[u8],
    sheets: &[u8],
    allowance: u32,
    shares: &mut [u16],
) -> [SheetRecord; 16]
    requires accepted { Accepted book.now plan sheets.now }
    requires count_le_allowance { (plan.count ≤ allowance) × (256 * plan.count ≤ length shares.old) }
    ensures served_all { ServedAll book.now plan sheets.now allowance result shares.new }
    ensures same_rest { SameRest book.now plan.count shares.old shares.new }
{
    clear_parts(shares, plan.count, files::boats(book));
    let states = start_all(plan, book, sheets);
    let none = SheetRecord {
        asked: 0,
        used: 0,
        finished: false,
        distance: 0,
        gap: 0,
        verdict: 0,
        length: 0,
    };
    let work = Work {
        rounds: Rounds {
            used: [0u32; 16],
            finished: [false; 16],
            left: allowance,
        },
        states,
        records: [none; 16],
    };
    let mut scores = [0i64; 4096];
    serve(work, plan, book, sheets, shares, &mut scores)
}

// The queue of some sheets: refuses it, and leaves the share list as it was, or gives the records and leaves the shares.
pub fn run_plan(
    plan: Plan,
    book: &[u8],
    sheets: &[u8],
    allowance: u32,
    shares: &mut [u16],
) -> Result<Served, Refused>
    ensures { Ran book.now plan sheets.now allowance shares.old (outcome result) shares.new }
{
    judge(plan, book, sheets, allowance, shares.len())?;
    let records = serve_all(plan, book, sheets, allowance, shares);
    Ok(Served {
        count: plan.count,
        records,
    })
}

// Record i of a queue.
pub fn record_at(served: Served, i: usize) -> SheetRecord
    requires { i < 16 }
    ensures { result ≡ get_or served.records i blank }
{
    let records = served.records;
    records[i]
}
