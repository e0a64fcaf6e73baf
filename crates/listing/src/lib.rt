// The listing of an answer as text: lines of words and decimal numbers, given back by value with their length.
//
// Helpers for other crates, whose callers prove what they require: with_boat, refused_listing and outcome_listing, which take any number of a
// refusal, reason_listing and listing_of, which take its reason.
#![tactic(auto)]

ghost use Rattle.std.specs.Prelude.{◌≡◌, ◌+◌, ◌≤◌, ◌<◌, take};
ghost use Rattle.files.specs.Sheet.{files_refusal};
ghost use Rattle.refusals.specs.Numbers.{number, refusal_number};
ghost use Rattle.method.specs.Searched.{Answered, searched, searched_by};
ghost use Rattle.text.specs.Lines.{pair_line};
ghost use Rattle.text.specs.Texts.{text_limit, Holds, Adds};
ghost use Rattle.listing.specs.Lines.{verdict_word, boat_line, boat_lines, head_lines, refused_line, outcome_listing, Listable, error_number};

use method::{Answer, Verdict};
use refusals::Refusal;
use text::Text;

// The text followed by the line of a verdict after `steps` steps with the total `weight`.
fn with_verdict(text: Text, v: Verdict, steps: u32, weight: u32) -> Text
    requires { text.len + 49 ≤ text_limit }
    ensures adds { Adds text (pair_line (verdict_word v) steps weight) result }
    ensures len_bound { result.len ≤ text.len + 49 }
{
    match v {
        Verdict::Within => text.with_pair(b"within ", steps as u64, weight as u64),
        Verdict::Beyond(_) => text.with_pair(b"beyond ", steps as u64, weight as u64),
        Verdict::Spent(_) => text.with_pair(b"spent ", steps as u64, weight as u64),
    }
}

// The text followed by the line of a boat, if it has shares.
pub fn with_boat(text: Text, boat: usize, share: u16) -> Text
    requires { (boat < 256) × (text.len + 47 ≤ text_limit) }
    ensures adds { Adds text (boat_line boat share) result }
    ensures len_bound { result.len ≤ text.len + 15 }
{
    if share == 0 {
        return text;
    }
    text.with_pair(b"boat ", boat as u64, share as u64)
}

// The text followed by the lines of the first `boats` boats that have shares.
fn with_boats(text: Text, shares: [u16; 256], boats: usize) -> Text
    requires { (boats ≤ 256) × (text.len ≤ 200) }
    ensures { Adds text (boat_lines 0 (take boats shares)) result }
{
    let mut longer = text;
    for i in 0..boats {
        longer = with_boat(longer, i, shares[i]);
    }
    longer
}

// The lines of an answer before its boats.
fn head(boats: usize, columns: usize, tolerance: u32, steps: u32, a: Answer) -> Text
    ensures holds { Holds (head_lines boats columns tolerance steps a) result }
    ensures len_bound { result.len ≤ 200 }
{
    let v = a.verdict;
    let fleet = Text::empty().with_pair(b"fleet ", boats as u64, columns as u64);
    let sheet = fleet.with_pair(b"sheet ", tolerance as u64, steps as u64);
    let verdict = with_verdict(sheet, v, a.steps, a.weight);
    let distance = verdict.with_line(b"distance ", a.distance);
    distance.with_line(b"gap ", a.gap)
}

// The listing of an answer.
fn answer_listing(book: &[u8], sheet: &[u8], a: Answer, shares: [u16; 256]) -> Text
    requires { files_refusal book.now sheet.now ≡ 0 }
    ensures { Holds (outcome_listing book.now sheet.now (Answered a) shares) result }
{
    let boats = files::boats(book);
    let begun = head(
        boats,
        files::columns(book),
        files::tolerance(sheet),
        files::steps(sheet),
        a,
    );
    with_boats(begun, shares, boats)
}

// A listing, and the number that refuses where it is a refusal's: any number may stand there.
#[derive(Clone, Copy)]
pub struct Numbered {
    pub refusal: Result<(), u32>,
    pub text: Text,
}

// A listing, and the reason where it is a refusal's.
#[derive(Clone, Copy)]
pub struct Listed {
    pub refusal: Result<(), Refusal>,
    pub text: Text,
}

// The listing of a number that refuses.
pub fn refused_listing(n: u32) -> Text
    ensures { Holds (refused_line n) result }
{
    Text::empty().with_line(b"refused ", n as u64)
}

// The listing of a refusal.
pub fn reason_listing(refusal: Refusal) -> Text
    ensures { Holds (refused_line (number refusal)) result }
{
    refused_listing(refusal.number())
}

// The listing of an answer of files, with the shares it left, or of the number that refuses, and that number.
pub fn outcome_listing(
    book: &[u8],
    sheet: &[u8],
    outcome: Result<Answer, u32>,
    shares: [u16; 256],
) -> Numbered
    requires { Listable book.now sheet.now (searched_by outcome) }
    ensures { (error_number result.refusal ≡ error_number outcome) × Holds (outcome_listing book.now sheet.now (searched_by outcome) shares) result.text }
{
    match outcome {
        Err(n) => Numbered {
            refusal: Err(n),
            text: refused_listing(n),
        },
        Ok(answer) => Numbered {
            refusal: Ok(()),
            text: answer_listing(book, sheet, answer, shares),
        },
    }
}

// The listing of what a search or a card check of files gave back, with the shares it left, and the reason where it was refused.
pub fn listing_of(
    book: &[u8],
    sheet: &[u8],
    outcome: Result<Answer, Refusal>,
    shares: [u16; 256],
) -> Listed
    requires { Listable book.now sheet.now (searched outcome) }
    ensures { (refusal_number result.refusal ≡ refusal_number outcome) × Holds (outcome_listing book.now sheet.now (searched outcome) shares) result.text }
{
    match outcome {
        Err(refusal) => Listed {
            refusal: Err(refusal),
            text: reason_listing(refusal),
        },
        Ok(answer) => Listed {
            refusal: Ok(()),
            text: answer_listing(book, sheet, answer, shares),
        },
    }
}
