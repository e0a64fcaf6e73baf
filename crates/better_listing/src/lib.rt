// The listing of the better of two cards.
//
// Entry, which asks nothing of its caller: better_text.
#![tactic(auto)]

ghost use Rattle.std.specs.Prelude.{◌≡◌, ◌+◌, ◌≤◌, length};
ghost use Rattle.files.specs.Sheet.{files_refusal};
ghost use Rattle.text.specs.Texts.{Holds};
ghost use Rattle.better_card_promise.specs.Choices.{numbered, part_of, choice};
ghost use Rattle.better_card_promise.specs.Promise.{BetterRight};
ghost use Rattle.better_card.specs.Wrong.{wrong_card};
ghost use Rattle.better_listing.specs.Listings.{part_listing, better_listing};

use better_card_promise::Choice;
use text::Text;

// The listing of a card that was not refused, or of the number that refuses.
fn part_text(book: &[u8], sheet: &[u8], part: &[u8], refusal: u32) -> Text
    requires { refusal ≡ 0 → files_refusal book.now sheet.now ≡ 0 }
    ensures { Holds (part_listing book.now sheet.now part.now refusal) result }
{
    if refusal != 0 {
        return listing::refused_listing(refusal);
    }
    card_listing::judged_text(book, sheet, part)
}

// What two cards leave to be filed and to be said: the choice, which card its refusal is of, 1 for the first, also where the files are
// refused, 2 for the second, and the listing of the card that was chosen.
#[derive(Clone, Copy)]
pub struct Chosen {
    pub choice: Choice,
    pub wrong: u32,
    pub text: Text,
}

// ENTRY. The better of two cards, as `choose` gives it, and the listing of its answer and shares, or of the number that refuses the files
// or a card; and which card is refused where one is. The fourth clause says what holds of the part that was chosen, as `choose` promises
// it, the fifth that it lies inside its card.
pub fn better_text<'a>(book: &[u8], sheet: &[u8], first: &'a [u8], second: &'a [u8]) -> Chosen
    ensures wrong_value { result.wrong ≡ wrong_card book.now sheet.now first.now }
    ensures choice_value { result.choice ≡ choice book.now sheet.now first.now second.now }
    ensures holds { Holds (better_listing book.now sheet.now first.now second.now) result.text }
    ensures better_right { BetterRight book.now sheet.now first.now second.now result.choice.refusal (part_of result.choice first.now second.now) }
    ensures len_in_bounds { result.choice.offset + result.choice.len ≤ length (numbered result.choice.card first.now second.now) }
{
    let ruling = better_card::judge_both(book, sheet, first, second);
    let choice = ruling.choice;
    let part = better_card::part_of(first, second, choice);
    let text = part_text(book, sheet, part, choice.refusal);
    Chosen {
        choice,
        wrong: ruling.wrong,
        text,
    }
}
