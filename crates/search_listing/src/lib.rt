// The listing of the search of a fleet book and a sheet.
//
// Entry, which asks nothing of its caller: search_listing.
#![tactic(auto)]

ghost use Rattle.std.specs.Prelude.{◌≡◌};
ghost use Rattle.refusals.specs.Numbers.{refusal_number};
ghost use Rattle.files.specs.Sheet.{files_refusal};
ghost use Rattle.text.specs.Texts.{Holds};
ghost use Rattle.method.specs.Promise.{OutcomeRight};
ghost use Rattle.search_listing.specs.Searches.{search_outcome, search_shares, search_listing};

use listing::Listed;

// ENTRY. The listing of a search's answer and shares, or of the reason that refuses the files, with that reason. The third clause says of
// what is listed all that `search` promises of it.
pub fn search_listing(book: &[u8], sheet: &[u8]) -> Listed
    ensures refusal_value { refusal_number result.refusal ≡ files_refusal book.now sheet.now }
    ensures holds { Holds (search_listing book.now sheet.now) result.text }
    ensures outcome_right { OutcomeRight book.now sheet.now (search_outcome book.now sheet.now) (search_shares book.now sheet.now) }
{
    let mut shares = [0u16; 256];
    let outcome = search::search(book, sheet, &mut shares);
    listing::listing_of(book, sheet, outcome, shares)
}
