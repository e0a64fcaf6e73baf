// The listing of a card that is checked against a fleet book and a sheet, or that a search of them has just written.
//
// Entries, which ask nothing of their caller: card_text, filed_text.
// Helper for other crates, whose callers prove what it requires: judged_text.
#![tactic(auto)]

ghost use Rattle.std.specs.Prelude.{◌≡◌, ◌≤◌, length, take};
ghost use Rattle.refusals.specs.Numbers.{refusal_number};
ghost use Rattle.files.specs.Book.{boats};
ghost use Rattle.files.specs.Sheet.{files_refusal};
ghost use Rattle.method.specs.Answers.{slots_after};
ghost use Rattle.method.specs.Promise.{OutcomeRight};
ghost use Rattle.card_format.specs.Written.{written};
ghost use Rattle.card_format.specs.Filing.{written_size, FilingRight};
ghost use Rattle.card_format.specs.Checking.{CheckRight};
ghost use Rattle.card_format.specs.Format.{card_shares, run_card};
ghost use Rattle.card_format.specs.Checks.{check_refusal};
ghost use Rattle.text.specs.Texts.{Holds};
ghost use Rattle.search_listing.specs.Searches.{search_outcome, search_shares, search_listing};
ghost use Rattle.card_listing.specs.Cards.{card_outcome, card_listing, search_filing, search_card, filed_size};

use card_format::FiledCard;
use listing::Listed;
use refusals::Refusal;
use text::Text;

// The bytes of the longest card that is written: 256 pairs and a trailer.
pub const MOST_CARD: usize = 1060;

// ENTRY. The listing of a card's answer and shares, or of the reason that refuses the files or the card, with that reason.
// The third clause says of what is listed all that `check_card` promises of it: the check vouches for the gap of the mixture, and not
// for the bound that a run of so many steps has.
pub fn card_text(book: &[u8], sheet: &[u8], filed: &[u8]) -> Listed
    ensures refusal_value { refusal_number result.refusal ≡ check_refusal book.now sheet.now filed.now 256 }
    ensures holds { Holds (card_listing book.now sheet.now filed.now) result.text }
    ensures check_right { CheckRight book.now sheet.now filed.now (card_outcome book.now sheet.now filed.now) (card_shares (boats book.now) filed.now) }
{
    let mut shares = [0u16; 256];
    let outcome = card::check_card(book, sheet, filed, &mut shares);
    listing::listing_of(book, sheet, outcome, shares)
}

// The listing of a card of files that were accepted, which are not judged again.
pub fn judged_text(book: &[u8], sheet: &[u8], filed: &[u8]) -> Text
    requires { files_refusal book.now sheet.now ≡ 0 }
    ensures { Holds (card_listing book.now sheet.now filed.now) result }
{
    let mut shares = [0u16; 256];
    let outcome = card::judge_card(book, sheet, filed, &mut shares);
    let listed = listing::listing_of(book, sheet, outcome, shares);
    listed.text
}

// What a search leaves to be filed and to be said: how many bytes its card has, or the reason that refuses the files; and the listing.
#[derive(Clone, Copy)]
pub struct Filing {
    pub filed: Result<usize, Refusal>,
    pub text: Text,
}

// What the card writer leaves to be filed and to be said, from its reply and the bytes that it wrote.
fn filing_of(book: &[u8], sheet: &[u8], reply: Result<FiledCard, Refusal>, buffer: &[u8]) -> Filing
    requires written_value { written reply ≡ search_filing book.now sheet.now }
    requires written_in_bounds { written_size (written reply) ≤ length buffer.now }
    requires buffer_value { take (written_size (written reply)) buffer.now ≡ search_card book.now sheet.now }
    ensures { (refusal_number result.filed ≡ files_refusal book.now sheet.now) × ((filed_size result.filed ≡ length (search_card book.now sheet.now)) × Holds (search_listing book.now sheet.now) result.text) }
{
    match reply {
        Err(refusal) => Filing {
            filed: Err(refusal),
            text: listing::reason_listing(refusal),
        },
        Ok(card) => Filing {
            filed: Ok(card.size),
            text: judged_text(book, sheet, &buffer[..card.size]),
        },
    }
}

// ENTRY. The card of a search, written to the first bytes of `output`, how many bytes it has or the reason that refuses the files, and the listing of the search.
// Refused files leave the buffer as it was; no card is longer than it. One search is made: its listing is that of the card which it wrote.
// The fourth clause says of the search all that `search` promises of it, the sixth of the card all that `write_card` promises: it reads
// back, also behind front text.
pub fn filed_text(book: &[u8], sheet: &[u8], output: &mut [u8; MOST_CARD]) -> Filing
    ensures refusal_value { refusal_number result.filed ≡ files_refusal book.now sheet.now }
    ensures len_value { filed_size result.filed ≡ length (search_card book.now sheet.now) }
    ensures holds { Holds (search_listing book.now sheet.now) result.text }
    ensures outcome_right { OutcomeRight book.now sheet.now (search_outcome book.now sheet.now) (search_shares book.now sheet.now) }
    ensures output_after { output.new ≡ slots_after (files_refusal book.now sheet.now) (run_card book.now sheet.now) output.old }
    ensures filing_right { FilingRight book.now sheet.now (search_filing book.now sheet.now) output.new }
{
    let reply = written_card::write_card(book, sheet, output);
    filing_of(book, sheet, reply, output)
}
