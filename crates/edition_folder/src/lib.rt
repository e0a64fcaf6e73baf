// The work of mixedition, in a folder that the caller names. What the system reads and writes no contract can say; test_rewriting holds
// what is printed and filed to the reference.
#![tactic(auto)]

// Converts sheet.wsh in a folder into its other edition, files that there as other.wsh and prints its edition and bytes, or the number that
// refuses it. The current folder has no name. Where the sheet is refused or other.wsh cannot be written, an older one stays as it was, and
// standard error says so, with what is known of a refusal. One byte more is read than a file may have, so that a longer file is refused and
// not cut.
pub fn file_other(rt: &HostRuntime, folder: &[u8]) {
    let mut sheet = [0u8; 40001];
    let n = file_io::read_in(rt, folder, b"sheet.wsh", &mut sheet);
    let mut output = [0u8; 40000];
    let given = other_edition::other_edition(&sheet[..n], &mut output);
    if let Err(refusal) = given {
        file_io::tell_text(rt, edition_text::known_detail(&sheet[..n], Err(refusal)));
    }
    let size = given.ok().map(|edition| edition.size);
    if file_io::replace_or_leave(rt, folder, b"other.wsh", &output, size) {
        file_io::print(
            rt,
            edition_text::edition_line(given.map_err(|refusal| refusal.number())),
        );
    }
}
