// The work of mixmerge, in a folder that the caller names. What the system reads and writes no contract can say; test_merge holds what is
// printed and filed to the reference.

#![tactic(auto)]

use refusals::Refusal;

// Says on standard error which of two books is refused, by what came of the first and of the merge: a number of 1 to 6 is the second's
// where the first has none.
fn tell_refused(
    rt: &HostRuntime,
    folder: &[u8],
    first: Result<(), Refusal>,
    merged: Result<usize, Refusal>,
) {
    if first.is_err() {
        file_io::tell_in(rt, folder, b"fleet.wbk", b": this book is refused\n");
        return;
    }
    if let Err(refusal) = merged {
        if refusal.number() <= 6 {
            file_io::tell_in(rt, folder, b"bought.wbk", b": this book is refused\n");
        }
    }
}

// Files one book from fleet.wbk and bought.wbk of a folder there as merged.wbk, without front text, and prints its boats and columns. The
// current folder has no name. Where the books are refused or the merged one cannot be written, an older merged.wbk stays as it was, and
// standard error says so. Of each book one byte more is read than it may have, so that a longer file is refused and not cut.
pub fn file_merged(rt: &HostRuntime, folder: &[u8]) {
    let mut first = [0u8; 40001];
    let mut second = [0u8; 40001];
    let n = file_io::read_in(rt, folder, b"fleet.wbk", &mut first);
    let m = file_io::read_in(rt, folder, b"bought.wbk", &mut second);
    let mut output = [0u8; merged_book::MOST_BYTES];
    let listed = merge_listing::merge_text(&first[..n], &second[..m], &mut output);
    let merged = listed.merged;
    tell_refused(rt, folder, listed.first, merged);
    if file_io::replace_or_leave(rt, folder, b"merged.wbk", &output, merged.ok()) {
        file_io::print(rt, listed.text);
    }
}
