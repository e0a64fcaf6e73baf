// The work of mixwork, in a folder that the caller names. What the system reads and writes no contract can say; test_worked holds what is
// printed and filed to the reference.

#![tactic(auto)]

use refusals::Refusal;

// Says what is known of a refusal that is neither of the files nor of the buffer.
fn tell_working(rt: &HostRuntime, refusal: Refusal) {
    match refusal {
        Refusal::VerdictNotSpent => file_io::tell(
            rt,
            b"sheet.wsh",
            b": the search does not end Spent, so nothing is worked over\n",
        ),
        Refusal::MovesAllowed => file_io::tell(rt, b"MOVES", b": not from 1 to 1000\n"),
        _ => {}
    }
}

// Works the search of these files over by at most so many moves, files the card of the result in a folder as worked.wcd and prints its listing.
fn file_found(rt: &HostRuntime, folder: &[u8], book: &[u8], sheet: &[u8], moves: u32) {
    old_files::tell_old(rt, folder, book, sheet);
    let mut output = [0u8; card_listing::MOST_CARD];
    let filing = worked_listing::worked_text(book, sheet, moves, &mut output);
    if let Err(refusal) = filing.filed {
        refusal_output::tell_detail(rt, book, sheet, refusal.number());
        tell_working(rt, refusal);
    }
    if file_io::replace_or_leave(rt, folder, b"worked.wcd", &output, filing.filed.ok()) {
        file_io::print(rt, filing.text);
    }
}

// Searches fleet.wbk and sheet.wsh in a folder, works the search over by at most so many moves where it ends Spent, files the card of the
// result there as worked.wcd and prints its listing. The current folder has no name. Where the call is refused or the card cannot be written,
// an older worked.wcd stays as it was, and standard error says so, with what is known of the refusal. It says too
// where a CSV in the folder is not what the book or the sheet was made from.
pub fn file_worked(rt: &HostRuntime, folder: &[u8], moves: u32) {
    file_io::with_files(
        rt,
        folder,
        |book, sheet| file_found(rt, folder, book, sheet, moves),
    );
}
