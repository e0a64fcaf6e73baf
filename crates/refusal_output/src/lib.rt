// What is known of a refusal of a fleet book, a sheet or a card, told on standard error. What the system writes no contract can say;
// tests/run_programs.py holds it to the reference.
#![tactic(auto)]

ghost use Rattle.std.specs.Prelude.{◌≡◌, ◌≤◌};
ghost use Rattle.files.specs.Sheet.{files_refusal};
ghost use Rattle.card_format.specs.Checks.{check_refusal};

// Says what is known of a refusal by this number, which the work of a program gave back: nothing where a card is refused, or where the
// number alone is known. The files are not judged again: the caller proves that a number of files is theirs.
pub fn tell_detail(rt: &HostRuntime, book: &[u8], sheet: &[u8], refusal: u32)
    requires { refusal ≤ 17 → files_refusal book.now sheet.now ≡ refusal }
{
    if refusal <= 17 {
        file_io::tell_text(rt, refusal_details::known_detail(book, sheet, refusal));
    }
}

// Says what is known of the refusal of a card by this number, which the work of a program gave back, in a line that starts with the name
// of the card's file: nothing where the number is not of a card. The caller proves that the number is theirs.
pub fn tell_card(
    rt: &HostRuntime,
    name: &[u8],
    book: &[u8],
    sheet: &[u8],
    card: &[u8],
    refusal: u32,
)
    requires { check_refusal book.now sheet.now card.now 256 ≡ refusal }
{
    file_io::tell_text(
        rt,
        card_details::known_card_detail(name, book, sheet, card, refusal),
    );
}
