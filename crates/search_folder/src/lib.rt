// The work of mixlist, in a folder that the caller names. What the system reads and writes no contract can say;
// test_program holds what is printed to the reference.

#![tactic(auto)]
// Prints the listing of the search of these files of a folder.
fn list_found(rt: &HostRuntime, folder: &[u8], book: &[u8], sheet: &[u8]) {
    old_files::tell_old(rt, folder, book, sheet);
    let listed = search_listing::search_listing(book, sheet);
    if let Err(refusal) = listed.refusal {
        refusal_output::tell_detail(rt, book, sheet, refusal.number());
    }
    file_io::print(rt, listed.text);
}

// Prints the listing of the search of fleet.wbk and sheet.wsh in a folder. The current folder has no name. What is known of a refusal
// goes to standard error, and that a CSV there is not what the file was made from.
pub fn list_search(rt: &HostRuntime, folder: &[u8]) {
    file_io::with_files(
        rt,
        folder,
        |book, sheet| list_found(rt, folder, book, sheet),
    );
}
