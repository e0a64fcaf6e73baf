// The work of leanlist, in a folder that the caller names. What the system reads no contract can say; what is made of it is the report of the
// book and of the pairs that were read, one after the other. test_lean holds what is printed to the reference.
#![tactic(auto)]

ghost use Rattle.std.specs.Prelude.{◌≡◌, ◌*◌, ◌≤◌, length};
ghost use Rattle.refusals.specs.Numbers.{refusal_number};
ghost use Rattle.leaning.specs.Report.{most_cards};
ghost use Rattle.leaning.specs.Slots.{card_slots};
ghost use Rattle.lean_folder.specs.Folder.{SomePair, SomeChecked, SomeReport};

use numbered_files::{name_of, read_named, tell_of};
use refusals::Refusal;
use text::Text;

// Names the file that refuses a report before any sheet or card is read.
fn tell_start(rt: &HostRuntime, folder: &[u8], cards: usize, refusal: Refusal) {
    if refusal == Refusal::ReportCards {
        if cards == 0 {
            tell_of(
                rt,
                folder,
                name_of(b"card", 0, b".wcd"),
                b": could not be opened\n",
            );
        } else {
            tell_of(
                rt,
                folder,
                name_of(b"card", leaning::MOST_CARDS, b".wcd"),
                b": there are more than 64 cards\n",
            );
        }
        return;
    }
    tell_of(
        rt,
        folder,
        Text::empty().with_bytes(b"fleet.wbk"),
        b": this book is refused\n",
    );
}

// Names the sheet or the card that is refused, the card for the numbers 31 to 39.
fn tell_refused(rt: &HostRuntime, folder: &[u8], before: usize, refusal: Refusal)
    requires { before ≤ most_cards }
{
    let n = refusal.number();
    if n < 31 {
        tell_of(
            rt,
            folder,
            name_of(b"sheet", before, b".wsh"),
            b": this sheet is refused\n",
        );
        return;
    }
    if n <= 39 {
        tell_of(
            rt,
            folder,
            name_of(b"card", before, b".wcd"),
            b": this card is refused\n",
        );
        return;
    }
    tell_of(
        rt,
        folder,
        name_of(b"sheet", before, b".wsh"),
        b": this sheet is refused\n",
    );
}

// Reads the sheet and the card behind `before` others, and checks the card. Of each file one byte more is read than it may have, so that a
// longer file is refused and not cut.
fn check_pair(
    rt: &HostRuntime,
    folder: &[u8],
    book: &[u8],
    before: usize,
    slots: &mut [u16],
) -> Result<(), Refusal>
    requires { before ≤ most_cards }
    ensures { SomePair book.now before slots.old (refusal_number result) slots.new }
{
    let mut sheet = [0u8; 40001];
    let mut filed = [0u8; 40001];
    let m = read_named(rt, folder, name_of(b"sheet", before, b".wsh"), &mut sheet);
    let l = read_named(rt, folder, name_of(b"card", before, b".wcd"), &mut filed);
    lean_cards::lean_card(book, &sheet[..m], &filed[..l], before, slots)
}

// Reads and checks the cards one by one, up to the first that is refused, which standard error names. The book and the number of cards come
// before them.
fn check_pairs(
    rt: &HostRuntime,
    folder: &[u8],
    book: &[u8],
    cards: usize,
    slots: &mut [u16],
) -> Result<(), Refusal>
    requires { card_slots * most_cards ≤ length slots.old }
    ensures { SomeChecked book.now cards (refusal_number result) slots.new }
{
    if let Err(refusal) = lean_cards::lean_start(book, cards) {
        tell_start(rt, folder, cards, refusal);
        return Err(refusal);
    }
    for k in 0..cards {
        if let Err(refusal) = check_pair(rt, folder, book, k, slots) {
            tell_refused(rt, folder, k, refusal);
            return Err(refusal);
        }
    }
    Ok(())
}

// The number of what refused a card, 0 where none was refused.
fn number_of(checked: Result<(), Refusal>) -> u32
    ensures { result ≡ refusal_number checked }
{
    match checked {
        Ok(()) => 0,
        Err(refusal) => refusal.number(),
    }
}

// The report of a book and of the cards of a folder.
fn report_of(rt: &HostRuntime, folder: &[u8], book: &[u8], cards: usize) -> Text
    ensures { SomeReport book.now cards result }
{
    let mut slots = [0u16; leaning::MOST_SLOTS];
    let checked = check_pairs(rt, folder, book, cards, &mut slots);
    lean_listing::lean_text(book, number_of(checked), cards, &slots)
}

// Prints which boats the cards of a folder rest on: card1.wcd checked with sheet1.wsh against fleet.wbk, and so on up to a card that cannot
// be opened; of more than 64 the 65th is the last that is tried. The current folder has no name. A sheet that cannot be opened counts as empty. Standard error names the file that is refused.
pub fn list_boats(rt: &HostRuntime, folder: &[u8]) {
    let mut book = [0u8; 40001];
    let n = file_io::read_in(rt, folder, b"fleet.wbk", &mut book);
    let cards = numbered_files::count_in(rt, folder, b"card", b".wcd", leaning::MOST_CARDS + 1);
    file_io::print(rt, report_of(rt, folder, &book[..n], cards));
}
