// The work of mixcard and mixcheck, in a folder that the caller names. What the system reads and writes no contract can say;
// test_program holds what is printed and filed to the reference.
// Of each file one byte more is read than it may have, so that a longer file is refused and not cut.
// Of both standard error says where a CSV in the folder is not what the book or the sheet was made from.

#![tactic(auto)]
// Files the card of the search of these files in a folder as card.wcd, and prints the listing.
fn file_found(rt: &HostRuntime, folder: &[u8], book: &[u8], sheet: &[u8]) {
    old_files::tell_old(rt, folder, book, sheet);
    let mut output = [0u8; card_listing::MOST_CARD];
    let filing = card_listing::filed_text(book, sheet, &mut output);
    if let Err(refusal) = filing.filed {
        refusal_output::tell_detail(rt, book, sheet, refusal.number());
    }
    if file_io::replace_or_leave(rt, folder, b"card.wcd", &output, filing.filed.ok()) {
        file_io::print(rt, filing.text);
    }
}

// Searches fleet.wbk and sheet.wsh in a folder, files the card there as card.wcd and prints the listing. The current folder has no name.
// Where the files are refused or the card cannot be written, an older card.wcd stays as it was, and standard error says so, with what is known of
// a refusal.
pub fn file_card(rt: &HostRuntime, folder: &[u8]) {
    file_io::with_files(
        rt,
        folder,
        |book, sheet| file_found(rt, folder, book, sheet),
    );
}

// Checks card.wcd of a folder against these files of it, and prints the listing of the card's answer.
fn check_found(rt: &HostRuntime, folder: &[u8], book: &[u8], sheet: &[u8]) {
    let mut filed = [0u8; 40001];
    let n = file_io::read_in(rt, folder, b"card.wcd", &mut filed);
    let card = file_io::first_bytes(&filed, n);
    old_files::tell_old(rt, folder, book, sheet);
    let listed = card_listing::card_text(book, sheet, card);
    if let Err(refusal) = listed.refusal {
        let n = refusal.number();
        refusal_output::tell_detail(rt, book, sheet, n);
        refusal_output::tell_card(rt, b"card.wcd", book, sheet, card, n);
    }
    file_io::print(rt, listed.text);
}

// Checks card.wcd against fleet.wbk and sheet.wsh in a folder, and prints the listing of the card's answer; standard error says what is
// known of a refusal.
// A card that passes is a mixture with the squared distance, gap and verdict it states. That a search of so many steps finds it,
// and so the bound on its distance by the steps, is not checked.
pub fn check_card(rt: &HostRuntime, folder: &[u8]) {
    file_io::with_files(
        rt,
        folder,
        |book, sheet| check_found(rt, folder, book, sheet),
    );
}
