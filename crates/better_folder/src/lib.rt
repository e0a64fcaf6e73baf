// The work of mixbetter, in a folder that the caller names. What the system reads and writes no contract can say; test_program holds
// what is printed and filed to the reference.
// Of each file one byte more is read than it may have, so that a longer file is refused and not cut.
#![tactic(auto)]

ghost use Rattle.std.specs.Prelude.{◌≡◌};
ghost use Rattle.card_format.specs.Checks.{check_refusal};
ghost use Rattle.better_card_promise.specs.Choices.{numbered};

// Says what is known of the refusal of one of two cards, of which this number is wrong.
fn tell_card(
    rt: &HostRuntime,
    book: &[u8],
    sheet: &[u8],
    first: &[u8],
    second: &[u8],
    wrong: u32,
    refusal: u32,
)
    requires { check_refusal book.now sheet.now (numbered wrong first.now second.now) 256 ≡ refusal }
{
    if wrong == 2 {
        refusal_output::tell_card(rt, b"second.wcd", book, sheet, second, refusal);
        return;
    }
    refusal_output::tell_card(rt, b"first.wcd", book, sheet, first, refusal);
}

// Files the better of first.wcd and second.wcd of a folder, for these files of it, and prints its listing.
fn file_found(rt: &HostRuntime, folder: &[u8], book: &[u8], sheet: &[u8]) {
    let mut first = [0u8; 40001];
    let mut second = [0u8; 40001];
    let k = file_io::read_in(rt, folder, b"first.wcd", &mut first);
    let l = file_io::read_in(rt, folder, b"second.wcd", &mut second);
    let one = file_io::first_bytes(&first, k);
    let other = file_io::first_bytes(&second, l);
    let chosen = better_listing::better_text(book, sheet, one, other);
    let choice = chosen.choice;
    refusal_output::tell_detail(rt, book, sheet, choice.refusal);
    tell_card(rt, book, sheet, one, other, chosen.wrong, choice.refusal);
    let part = better_card::part_of(one, other, choice);
    let written = if choice.refusal == 0 {
        Some(choice.len)
    } else {
        None
    };
    if file_io::replace_or_leave(rt, folder, b"better.wcd", part, written) {
        file_io::print(rt, chosen.text);
    }
}

// Files the better of first.wcd and second.wcd, for fleet.wbk and sheet.wsh of a folder, there as better.wcd without front text, and
// prints its listing. The current folder has no name. Where a file is refused or the card cannot be written, an older better.wcd
// stays as it was, and standard error says so, with what is known of a refusal and of which file it is.
pub fn file_better(rt: &HostRuntime, folder: &[u8]) {
    file_io::with_files(
        rt,
        folder,
        |book, sheet| file_found(rt, folder, book, sheet),
    );
}
