// The listing of a Spent search that is worked over, and its card.
//
// Entry, which asks nothing of its caller: worked_text.
#![tactic(auto)]

ghost use Rattle.std.specs.Prelude.{◌≡◌, ◌≤◌, length};
ghost use Rattle.method.specs.Problem.{plain_terms};
ghost use Rattle.method.specs.Answers.{slots_after};
ghost use Rattle.refusals.specs.Numbers.{refusal_number};
ghost use Rattle.card_listing.specs.Cards.{filed_size};
ghost use Rattle.card_format.specs.Written.{written};
ghost use Rattle.card_format.specs.Filing.{writing_number, written_size};
ghost use Rattle.text.specs.Texts.{Holds};
ghost use Rattle.pairwise.specs.Call.{worked_card, WorkingRight};
ghost use Rattle.worked_listing.specs.Working.{work_number, work_filing, working_listing, written_listing, Served};

use card_format::FiledCard;
use card_listing::Filing;
use method::Released;
use refusals::Refusal;

// What the call leaves to be filed and to be said, from its reply and the bytes that it wrote. Files whose card was filed were accepted, and
// are not judged again.
fn filing_of(book: &[u8], sheet: &[u8], reply: Result<FiledCard, Refusal>, buffer: &[u8]) -> Filing
    requires served { Served book.now sheet.now (written reply) }
    requires written_in_bounds { written_size (written reply) ≤ length buffer.now }
    ensures { (refusal_number result.filed ≡ writing_number (written reply)) × ((filed_size result.filed ≡ written_size (written reply)) × Holds (written_listing book.now sheet.now (written reply) buffer.now) result.text) }
{
    match reply {
        Err(refusal) => Filing {
            filed: Err(refusal),
            text: listing::reason_listing(refusal),
        },
        Ok(card) => Filing {
            filed: Ok(card.size),
            text: card_listing::judged_text(book, sheet, &buffer[..card.size]),
        },
    }
}

// ENTRY. A search that ends Spent, worked over by at most so many moves with all boats of the book: its card in the first bytes of `output`, as
// `work_over` writes it, or the reason that refuses the call, and the listing of the result or of that number, which leaves the buffer as it
// was. The last clause says of both all that `work_over` promises.
pub fn worked_text(
    book: &[u8],
    sheet: &[u8],
    moves: u32,
    output: &mut [u8; card_listing::MOST_CARD],
) -> Filing
    ensures refusal_value { refusal_number result.filed ≡ work_number book.now sheet.now moves }
    ensures len_value { filed_size result.filed ≡ written_size (work_filing book.now sheet.now moves) }
    ensures holds { Holds (working_listing book.now sheet.now moves) result.text }
    ensures output_after { output.new ≡ slots_after (work_number book.now sheet.now moves) (worked_card plain_terms book.now sheet.now moves) output.old }
    ensures working_right { WorkingRight plain_terms book.now sheet.now moves (work_filing book.now sheet.now moves) output.new }
{
    let every = Released {
        limited: false,
        boats: [0u8; 32],
    };
    let reply = worked_card::work_over(book, sheet, every, moves, output);
    filing_of(book, sheet, reply, output)
}
