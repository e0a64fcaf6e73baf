// The line that says what two fleet books gave: boats and columns of the merged book, or the number that refuses.
//
// Entry, which asks nothing of its caller: merge_text.
#![tactic(auto)]

ghost use Rattle.std.specs.Prelude.{◌≡◌, length};
ghost use Rattle.refusals.specs.Numbers.{number, refusal_number};
ghost use Rattle.files.specs.Book.{book_refusal};
ghost use Rattle.method.specs.Answers.{slots_after};
ghost use Rattle.text.specs.Texts.{Holds};
ghost use Rattle.merged_book.specs.Merging.{merged_book, merge_refusal, merging, as_merged};
ghost use Rattle.merged_book.specs.Promise.{MergeRight};
ghost use Rattle.merge_listing.specs.Listings.{merge_line};

use refusals::Refusal;
use text::Text;

// What came of two books, how many bytes are to be filed or why they are refused; what came of the first of them alone; and what is to be said.
#[derive(Clone, Copy)]
pub struct Listed {
    pub merged: Result<usize, Refusal>,
    pub first: Result<(), Refusal>,
    pub text: Text,
}

// The line of a book.
fn book_line(book: &[u8]) -> Text
    requires { book_refusal book.now ≡ 0 }
    ensures { Holds (merge_line 0 book.now) result }
{
    let boats = files::boats(book);
    let columns = files::columns(book);
    Text::empty().with_pair(b"fleet ", boats as u64, columns as u64)
}

// ENTRY. One fleet book from two, as `merge_books` writes it, and its line. Where a book is refused, the second clause tells which. The last
// clause says what holds of the merged book, as `merge_books` promises it.
pub fn merge_text(first: &[u8], second: &[u8], output: &mut [u8]) -> Listed
    ensures merged_value { as_merged result.merged ≡ merging (merge_refusal first.now second.now (length output.old)) (length (merged_book first.now second.now)) }
    ensures first_value { refusal_number result.first ≡ book_refusal first.now }
    ensures output_after { output.new ≡ slots_after (merge_refusal first.now second.now (length output.old)) (merged_book first.now second.now) output.old }
    ensures holds { Holds (merge_line (merge_refusal first.now second.now (length output.old)) (merged_book first.now second.now)) result.text }
    ensures merge_right { MergeRight first.now second.now (as_merged result.merged) output.new }
{
    let of_first = validation::book_refusal(first);
    let merged = merge_books::merge_known(first, second, output, of_first);
    let text = match merged {
        Ok(len) => book_line(&output[..len]),
        Err(refusal) => Text::empty().with_line(b"refused ", refusal.number() as u64),
    };
    Listed {
        merged,
        first: of_first,
        text,
    }
}
