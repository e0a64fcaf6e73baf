// A card's form tested: refusals 31 to 36.
//
// Helpers for other crates, whose callers prove what they require: test_of, steps_used, pair_count, form_refusal.
#![tactic(auto)]

ghost use Rattle.std.specs.Prelude.{◌||◌, ◌≡◌, ◌*◌, ◌-◌, ◌≤◌, ◌<◌, length};
ghost use Rattle.refusals.specs.Numbers.{refusal_number};
ghost use Rattle.method.specs.declared.Test.TheVariants.{Former, Sharper};
ghost use Rattle.card_format.specs.Format.{card_fields, lettered, card_test, pair_count};
ghost use Rattle.card_format.specs.Checks.{back_fits, counts_agree, steps_fit, form_refusal};

use method::Test;
use refusals::Refusal;

// Whether a card ends with the letters of either edition.
fn is_lettered(card: &[u8]) -> bool
    requires { 36 ≤ length card.now }
    ensures { result ≡ lettered Former card.now || lettered Sharper card.now }
{
    if files::ends_with(card, b"WCD1") {
        return true;
    }
    files::ends_with(card, b"WCD2")
}

// The test that judges a card's verdict, by its letters.
pub fn test_of(card: &[u8]) -> Test
    requires { 36 ≤ length card.now }
    ensures { result ≡ card_test card.now }
{
    if files::ends_with(card, b"WCD2") {
        return Test::Sharper;
    }
    Test::Former
}

// Whether a card names so many boats and columns.
fn counts_agree(card: &[u8], boats: usize, columns: usize) -> bool
    requires { 36 ≤ length card.now }
    ensures { result ≡ counts_agree boats columns card.now }
{
    if files::u16_at(card, card.len() - 8) as usize != boats {
        return false;
    }
    files::u16_at(card, card.len() - 6) as usize == columns
}

// The steps that a card says were used.
pub fn steps_used(card: &[u8]) -> u32
    requires { 36 ≤ length card.now }
    ensures value { result ≡ (card_fields card.now).steps }
    ensures upper_bound { result < 65536 }
{
    files::u16_at(card, card.len() - 30)
}

// Whether a card's verdict is 1 to 3 and its steps used are 1 to `steps`.
fn steps_fit(card: &[u8], steps: u32) -> bool
    requires { 36 ≤ length card.now }
    ensures { result ≡ steps_fit steps card.now }
{
    if !file_parts::is_between(1, 3, files::u16_at(card, card.len() - 32) as usize) {
        return false;
    }
    file_parts::is_between(1, steps as usize, steps_used(card) as usize)
}

// Whether a card's back count is above zero, a multiple of 4, at most 4 × boats, and starts inside the file.
fn back_fits(card: &[u8], boats: usize) -> bool
    requires { (36 ≤ length card.now) × (boats ≤ 256) }
    ensures { result ≡ back_fits boats (card_fields card.now).back card.now }
{
    let room = card.len() - 36;
    let back = files::u32_at(card, room) as usize;
    if back == 0 {
        return false;
    }
    if back % 4 != 0 {
        return false;
    }
    if 4 * boats < back {
        return false;
    }
    back <= room
}

// How many pairs a card's back count says.
pub fn pair_count(card: &[u8]) -> usize
    requires { 36 ≤ length card.now }
    ensures value { result ≡ pair_count card.now }
    ensures upper_bound { result < 1073741824 }
{
    files::u32_at(card, card.len() - 36) as usize / 4
}

// The first reason, 31 to 36, that refuses a card's form.
pub fn form_refusal(card: &[u8], boats: usize, columns: usize, steps: u32) -> Result<(), Refusal>
    requires { boats ≤ 256 }
    ensures { refusal_number result ≡ form_refusal boats columns steps card.now }
{
    if !file_parts::is_between(36, 40000, card.len()) {
        return Err(Refusal::CardLength);
    }
    if !is_lettered(card) {
        return Err(Refusal::CardLetters);
    }
    if !counts_agree(card, boats, columns) {
        return Err(Refusal::CardCounts);
    }
    if !steps_fit(card, steps) {
        return Err(Refusal::CardVerdict);
    }
    if !back_fits(card, boats) {
        return Err(Refusal::CardBack);
    }
    let count = pair_count(card);
    if !card_pairs::pairs_in_order(card, card.len() - 36 - 4 * count, count, boats) {
        return Err(Refusal::CardBoats);
    }
    Ok(())
}
