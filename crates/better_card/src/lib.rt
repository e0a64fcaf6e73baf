// The better of two cards, handed back as a part of the caller's own bytes.
//
// Entries, which ask nothing of their caller: choose, better_card.
// Helpers for other crates: part_of, whose callers prove what it requires; judge_both asks nothing.
#![tactic(auto)]

ghost use Rattle.std.specs.Prelude.{◌≡◌, ◌+◌, ◌≤◌, length};
ghost use Rattle.refusals.specs.Numbers.{number};
ghost use Rattle.files.specs.Sheet.{files_refusal};
ghost use Rattle.method.specs.Searched.{searched};
ghost use Rattle.method.specs.Answers.{outcome};
ghost use Rattle.card_format.specs.Format.{card_fields, card_answer};
ghost use Rattle.card_format.specs.Checks.{check_refusal};
ghost use Rattle.better_card_promise.specs.Choices.{better_refusal, nearer, numbered, better_part, better_place, part_of, place_of, bare_choice, no_choice, choice};
ghost use Rattle.better_card_promise.specs.Promise.{BetterRight};
ghost use Rattle.better_card.specs.Wrong.{wrong_card};

use better_card_promise::Choice;
use method::Answer;
use refusals::Refusal;

// The check of a card with a share list of its own: 256 slots serve any book, so 21 never applies.
fn checked(book: &[u8], sheet: &[u8], card: &[u8]) -> Result<Answer, Refusal>
    ensures { searched result ≡ outcome (check_refusal book.now sheet.now card.now 256) (card_answer book.now sheet.now card.now) }
{
    let mut shares = [0u16; 256];
    card::check_card(book, sheet, card, &mut shares)
}

// The same where book and sheet were accepted, which are not judged again.
fn judged(book: &[u8], sheet: &[u8], card: &[u8]) -> Result<Answer, Refusal>
    requires { files_refusal book.now sheet.now ≡ 0 }
    ensures { searched result ≡ outcome (check_refusal book.now sheet.now card.now 256) (card_answer book.now sheet.now card.now) }
{
    let mut shares = [0u16; 256];
    card::judge_card(book, sheet, card, &mut shares)
}

// Whether an answer's squared distance E / W² is less than another's, by products of up to 128 bits: E₁ W₂² < E₂ W₁².
fn nearer(a: Answer, b: Answer) -> bool
    ensures { result ≡ nearer a b }
{
    let v = a.weight as u64;
    let w = b.weight as u64;
    wide_products::product_below(a.distance, w * w, b.distance, v * v)
}

// A refusal: no bytes of the first card.
fn refused(r: Refusal) -> Choice
    ensures { result ≡ no_choice (number r) }
{
    Choice {
        refusal: r.number(),
        card: 1,
        offset: 0,
        len: 0,
    }
}

// Body and trailer of the card of this number.
fn behind_front(card: &[u8], number: u32) -> Choice
    requires { (card_fields card.now).back + 36 ≤ length card.now }
    ensures { result ≡ bare_choice number card.now }
{
    let room = card.len() - 36;
    let back = files::u32_at(card, room) as usize;
    Choice {
        refusal: 0,
        card: number,
        offset: room - back,
        len: back + 36,
    }
}

// A choice, and which card its refusal is of: 1 for the first, also where the files are refused, 2 for the second.
#[derive(Clone, Copy)]
pub struct Ruling {
    pub choice: Choice,
    pub wrong: u32,
}

// The choice as `choose` gives it, and which card is refused where one is, so that nothing is judged again to name it.
pub fn judge_both(book: &[u8], sheet: &[u8], first: &[u8], second: &[u8]) -> Ruling
    ensures wrong_value { result.wrong ≡ wrong_card book.now sheet.now first.now }
    ensures choice_value { result.choice ≡ choice book.now sheet.now first.now second.now }
    ensures better_right { BetterRight book.now sheet.now first.now second.now result.choice.refusal (part_of result.choice first.now second.now) }
    ensures len_in_bounds { result.choice.offset + result.choice.len ≤ length (numbered result.choice.card first.now second.now) }
{
    match checked(book, sheet, first) {
        Err(r) => Ruling {
            choice: refused(r),
            wrong: 1,
        },
        Ok(a) => match judged(book, sheet, second) {
            Err(r) => Ruling {
                choice: refused(r),
                wrong: 2,
            },
            Ok(b) => {
                if nearer(b, a) {
                    return Ruling {
                        choice: behind_front(second, 2),
                        wrong: 2,
                    };
                }
                Ruling {
                    choice: behind_front(first, 1),
                    wrong: 2,
                }
            }
        },
    }
}

// ENTRY. The better of two cards for one book and sheet, by number, offset and length: the one with the lesser exact squared distance,
// of equal ones the first. Refuses the files (1 to 17, 46), then the first card, then the second (31 to 39). The second clause says what
// holds of the part that is named (BetterRight), the third that it lies inside its card.
pub fn choose(book: &[u8], sheet: &[u8], first: &[u8], second: &[u8]) -> Choice
    ensures value { result ≡ choice book.now sheet.now first.now second.now }
    ensures better_right { BetterRight book.now sheet.now first.now second.now result.refusal (part_of result first.now second.now) }
    ensures len_in_bounds { result.offset + result.len ≤ length (numbered result.card first.now second.now) }
{
    let ruling = judge_both(book, sheet, first, second);
    ruling.choice
}

// The part of two cards that a choice names: its bytes, and in which card and where it starts.
pub fn part_of<'a>(first: &'a [u8], second: &'a [u8], chosen: Choice) -> &'a [u8]
    requires { chosen.offset + chosen.len ≤ length (numbered chosen.card first.now second.now) }
    ensures result_value { result.now ≡ part_of chosen first.now second.now }
    ensures ref_ptr_value { result.ref_ptr ≡ place_of chosen first.entry.ref_ptr second.entry.ref_ptr }
{
    let offset = chosen.offset;
    let end = offset + chosen.len;
    if chosen.card == 2 {
        return &second[offset..end];
    }
    &first[offset..end]
}

// ENTRY. The better of two cards as a part of the caller's own bytes, body and trailer without front text; `number` is left 0. A refusal
// hands back an empty part of the first card and leaves its number, in the order of `choose`. The third clause says where the part starts:
// behind the front text of the second card where that is nearer, else of the first; on a refusal at the first card's start. The fourth
// says that the part is the end of the card, that the check reads the same answer and shares from it, and that no card of the two is
// nearer (BetterRight).
pub fn better_card<'a>(
    book: &[u8],
    sheet: &[u8],
    first: &'a [u8],
    second: &'a [u8],
    number: &mut u32,
) -> &'a [u8]
    ensures number_after { number.new ≡ better_refusal book.now sheet.now first.now second.now }
    ensures result_value { result.now ≡ better_part book.now sheet.now first.now second.now }
    ensures ref_ptr_value { result.ref_ptr ≡ better_place book.now sheet.now first.now second.now first.entry.ref_ptr second.entry.ref_ptr }
    ensures better_right { BetterRight book.now sheet.now first.now second.now number.new result.now }
{
    let chosen = choose(book, sheet, first, second);
    *number = chosen.refusal;
    part_of(first, second, chosen)
}
