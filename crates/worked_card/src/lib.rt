// The card of a Spent run that is worked over.
//
// Entry, which asks nothing of its caller: work_over.
#![tactic(auto)]

ghost use Rattle.std.specs.Prelude.{◌≡◌, length};
ghost use Rattle.method.specs.Problem.{call_problem};
ghost use Rattle.method.specs.Answers.{slots_after};
ghost use Rattle.card_format.specs.Written.{written};
ghost use Rattle.card_format.specs.Filing.{filing};
ghost use Rattle.pairwise.specs.Moves.{worked_answer};
ghost use Rattle.pairwise.specs.Call.{set_terms, worked_card, work_refusal, WorkingRight};

use card_format::FiledCard;
use method::Released;
use refusals::Refusal;

// ENTRY. A search that ends Spent, worked over by at most so many moves, and its card written to the first bytes of `output`. A move takes
// shares from one boat that holds some to another; the total stays and no boat joins. The set of released boats is read only where it says
// that the call is limited to it. Refuses files and a set that do not serve (1 to 17, 46, with 52 of a set after 6), then by 53 a search that
// does not end Spent, by 54 moves outside 1 to 1,000 and by 22 a buffer shorter than the card of the result, and leaves the buffer as it was;
// else gives the answer of the result and the card's length. Later bytes are as they were. The first two clauses give the outcome and every
// byte; the third says what holds of them: each move is the best and lowers E, the bounds hold of the result, and the card check accepts the
// card under the same set (WorkingRight).
pub fn work_over(
    book: &[u8],
    sheet: &[u8],
    released: Released,
    moves: u32,
    output: &mut [u8],
) -> Result<FiledCard, Refusal>
    ensures value { written result ≡ filing (work_refusal (set_terms released) book.now sheet.now moves (length output.old)) (worked_answer (call_problem (set_terms released) book.now sheet.now) moves) (length (worked_card (set_terms released) book.now sheet.now moves)) }
    ensures output_after { output.new ≡ slots_after (work_refusal (set_terms released) book.now sheet.now moves (length output.old)) (worked_card (set_terms released) book.now sheet.now moves) output.old }
    ensures working_right { WorkingRight (set_terms released) book.now sheet.now moves (written result) output.new }
{
    calls::call_refusal(book, sheet, released, None)?;
    let worked = pairwise_run::worked(book, sheet, released, moves)?;
    let boats = files::boats(book);
    let answer = worked.answer;
    let shares = worked.shares;
    let back = 4 * card_output::holding(shares, boats);
    if output.len() < back + 36 {
        return Err(Refusal::CardRoom);
    }
    card_output::put_pairs(output, shares, boats);
    card_output::put_trailer(
        output,
        back,
        answer,
        files::tolerance(sheet),
        boats,
        files::columns(book),
    );
    let size = back + 36;
    Ok(FiledCard { answer, size })
}
