// The card writer.
//
// Entries, which ask nothing of their caller: write_card_with, write_card.
#![tactic(auto)]

ghost use Rattle.std.specs.Prelude.{◌≡◌, false, length, None, option_copied};
ghost use Rattle.method.specs.Problem.{plain_terms, call_problem, problem};
ghost use Rattle.method.specs.Calls.{terms_in};
ghost use Rattle.method.specs.Answers.{slots_after, run_answer};
ghost use Rattle.card_format.specs.Written.{written};
ghost use Rattle.card_format.specs.Format.{run_card_with, run_card};
ghost use Rattle.card_format.specs.Checks.{write_refusal_with, write_refusal};
ghost use Rattle.card_format.specs.Filing.{filing, FilingRightWith, FilingRight};

use card_format::FiledCard;
use method::Released;
use refusals::Refusal;

// ENTRY. The card writer with what a caller may hand in beside the files: a set of released boats, which is read only where it says that
// the call is limited to it, and a table of shares that is lent, or none. Refuses a lent table (49 to 51), then as the
// writer of the files alone does, with 52 of a set after 6, and leaves the buffer as it was; else writes the card of the run of the
// problem that they set, boats numbered as in the book. Nothing on the card says which table or set made it. The rows of other boats
// change nothing (isolated). With nothing handed in the terms are those of `write_card`.
pub fn write_card_with(
    book: &[u8],
    sheet: &[u8],
    released: Released,
    table: Option<&[u16]>,
    output: &mut [u8],
) -> Result<FiledCard, Refusal>
    ensures value { written result ≡ filing (write_refusal_with (terms_in released (option_copied table.entry)) book.now sheet.now (length output.old)) (run_answer (call_problem (terms_in released (option_copied table.entry)) book.now sheet.now)) (length (run_card_with (terms_in released (option_copied table.entry)) book.now sheet.now)) }
    ensures output_after { output.new ≡ slots_after (write_refusal_with (terms_in released (option_copied table.entry)) book.now sheet.now (length output.old)) (run_card_with (terms_in released (option_copied table.entry)) book.now sheet.now) output.old }
    ensures filing_right_with { FilingRightWith (terms_in released (option_copied table.entry)) book.now sheet.now (written result) output.new }
    ensures table_value { released.limited ≡ false → option_copied table.entry ≡ None → terms_in released (option_copied table.entry) ≡ plain_terms }
{
    calls::call_refusal(book, sheet, released, table)?;
    let boats = files::boats(book);
    let mut shares = [0u16; 256];
    let answer = released_run::run(book, sheet, released, table, &mut shares);
    let back = 4 * card_output::holding(shares, boats);
    if output.len() < back + 36 {
        return Err(Refusal::CardRoom);
    }
    card_output::put_pairs(output, shares, boats);
    card_output::put_trailer(
        output,
        back,
        answer,
        files::tolerance(sheet),
        boats,
        files::columns(book),
    );
    let size = back + 36;
    Ok(FiledCard { answer, size })
}

// ENTRY. The card of a run, written to the first bytes of `output`: refuses files and a buffer that do not serve (1 to 17, 46, then 22)
// and leaves the buffer as it was; else gives the run's answer and the card's length. Later bytes are as they were. The third
// clause says that the bytes read back as this answer and its shares, and what holds of them (FilingRight).
pub fn write_card(book: &[u8], sheet: &[u8], output: &mut [u8]) -> Result<FiledCard, Refusal>
    ensures value { written result ≡ filing (write_refusal book.now sheet.now (length output.old)) (run_answer (problem book.now sheet.now)) (length (run_card book.now sheet.now)) }
    ensures output_after { output.new ≡ slots_after (write_refusal book.now sheet.now (length output.old)) (run_card book.now sheet.now) output.old }
    ensures filing_right { FilingRight book.now sheet.now (written result) output.new }
{
    let every_boat = Released {
        limited: false,
        boats: [0u8; 32],
    };
    write_card_with(book, sheet, every_boat, None, output)
}
