// What the entries give back as plain numbers, for programs in other languages, and a table that these lend.
//
// Helpers, which ask nothing of their caller: lent_table, reply_of, card_reply_of, edition_reply_of, which take any number of a refusal, and
// reply_to, card_reply_to, edition_reply_to, which take its reason.
#![tactic(auto)]

ghost use Rattle.std.specs.Prelude.{◌≡◌, option_copied};
ghost use Rattle.method.specs.Calls.{lent_table};
ghost use Rattle.method.specs.Searched.{searched, searched_by};
ghost use Rattle.card_format.specs.Written.{written, written_by};
ghost use Rattle.editions.specs.Rewritten.{rewritten, rewritten_by};
ghost use Rattle.exported_types.specs.Replies.{floor_of, shortfall_of, reply_of, card_reply_of, edition_reply_of};

use card_format::FiledCard;
use editions::Edition;
use method::{Answer, Verdict};
use refusals::Refusal;

// A table that a program in another language lends: it counts only where `lent` says so.
pub fn lent_table(lent: bool, table: &[u16]) -> Option<&[u16]>
    ensures { option_copied result ≡ lent_table lent table.now }
{
    if lent { Some(table) } else { None }
}

// The answer of a call as plain numbers. A refused call has its number in `refusal` and 0 in every other field;
// an answered one has 0 in `refusal`.
#[repr(C)]
#[derive(Clone, Copy)]
pub struct Reply {
    // the number that refuses the call
    pub refusal: u32,
    // 1 Within, 2 Beyond, 3 Spent
    pub verdict: u32,
    // t, the steps used
    pub steps: u32,
    // W, the total of the shares
    pub weight: u32,
    // E, the squared distance times W²
    pub distance: u64,
    // G, the gap times W²
    pub gap: u64,
    // E - 2 G of Beyond, else 0
    pub floor: i64,
    // E - tolerance × W² of Spent, else 0
    pub shortfall: u64,
}

// What Beyond carries, 0 for the others.
fn floor_of(v: Verdict) -> i64
    ensures { result ≡ floor_of v }
{
    match v {
        Verdict::Within => 0,
        Verdict::Beyond(floor) => floor,
        Verdict::Spent(_) => 0,
    }
}

// What Spent carries, 0 for the others.
fn shortfall_of(v: Verdict) -> u64
    ensures { result ≡ shortfall_of v }
{
    match v {
        Verdict::Within => 0,
        Verdict::Beyond(_) => 0,
        Verdict::Spent(shortfall) => shortfall,
    }
}

// The number of a refusal, or an answer, as plain numbers.
pub fn reply_of(found: Result<Answer, u32>) -> Reply
    ensures { result ≡ reply_of (searched_by found) }
{
    match found {
        Err(refusal) => Reply {
            refusal,
            verdict: 0,
            steps: 0,
            weight: 0,
            distance: 0,
            gap: 0,
            floor: 0,
            shortfall: 0,
        },
        Ok(a) => {
            let v = a.verdict;
            Reply {
                refusal: 0,
                verdict: verdicts::verdict_number(v),
                steps: a.steps,
                weight: a.weight,
                distance: a.distance,
                gap: a.gap,
                floor: floor_of(v),
                shortfall: shortfall_of(v),
            }
        }
    }
}

// What a search or a card check gives back as plain numbers.
pub fn reply_to(found: Result<Answer, Refusal>) -> Reply
    ensures { result ≡ reply_of (searched found) }
{
    match found {
        Err(r) => reply_of(Err(r.number())),
        Ok(a) => reply_of(Ok(a)),
    }
}

// The reply of the card writer. A refused call has 0 in `bytes`: nothing was written.
#[repr(C)]
#[derive(Clone, Copy)]
pub struct CardReply {
    // the run's answer, or the number that refuses the call
    pub reply: Reply,
    // the bytes of the card that was written
    pub bytes: usize,
}

// The number of a refusal, or a card that was written, as plain numbers.
pub fn card_reply_of(filed: Result<FiledCard, u32>) -> CardReply
    ensures { result ≡ card_reply_of (written_by filed) }
{
    match filed {
        Err(refusal) => {
            let reply = reply_of(Err(refusal));
            CardReply { reply, bytes: 0 }
        }
        Ok(card) => {
            let reply = reply_of(Ok(card.answer));
            CardReply {
                reply,
                bytes: card.size,
            }
        }
    }
}

// What the card writer gives back as plain numbers.
pub fn card_reply_to(filed: Result<FiledCard, Refusal>) -> CardReply
    ensures { result ≡ card_reply_of (written filed) }
{
    match filed {
        Err(r) => card_reply_of(Err(r.number())),
        Ok(card) => card_reply_of(Ok(card)),
    }
}

// The reply of a sheet's conversion. A refused call has 0 in `edition` and `bytes`: nothing was written.
#[repr(C)]
#[derive(Clone, Copy)]
pub struct EditionReply {
    // the number that refuses the call, 0 where a sheet was written
    pub refusal: u32,
    // the edition that was written, 1 or 2
    pub edition: u32,
    // its bytes
    pub bytes: usize,
}

// The number of a refusal, or an edition that was written, as plain numbers.
pub fn edition_reply_of(given: Result<Edition, u32>) -> EditionReply
    ensures { result ≡ edition_reply_of (rewritten_by given) }
{
    match given {
        Err(refusal) => EditionReply {
            refusal,
            edition: 0,
            bytes: 0,
        },
        Ok(e) => EditionReply {
            refusal: 0,
            edition: e.number,
            bytes: e.size,
        },
    }
}

// What a conversion gives back as plain numbers.
pub fn edition_reply_to(given: Result<Edition, Refusal>) -> EditionReply
    ensures { result ≡ edition_reply_of (rewritten given) }
{
    match given {
        Err(r) => edition_reply_of(Err(r.number())),
        Ok(e) => edition_reply_of(Ok(e)),
    }
}
