// The work of the four programs in one folder after another: what each prints, and the cards that are left. The files of data/
// are made by tests/make_data.py, the expected output by tests/expected/test_program.py.

#![tactic(auto)]
// Prints how many bytes a card of a folder has, at most 40,001, and a sum over them.
fn card_left(rt: &HostRuntime, folder: &[u8], name: &[u8]) {
    let mut filed = [0u8; 40001];
    let n = file_io::read_in(rt, folder, name, &mut filed);
    test_printing::line(rt, b"bytes", n as u64);
    test_printing::line(rt, b"sum", test_buffers::checksum(&filed[..n]));
}

// Lists the search of a folder, checks the card that stands there, files the card of the search, and checks again; then files the
// better of the folder's two cards.
fn programs(rt: &HostRuntime, folder: &[u8]) {
    test_printing::title(rt, b"mixlist");
    search_folder::list_search(rt, folder);
    test_printing::title(rt, b"mixcheck");
    card_folder::check_card(rt, folder);
    test_printing::title(rt, b"mixcard");
    card_folder::file_card(rt, folder);
    card_left(rt, folder, b"card.wcd");
    test_printing::title(rt, b"mixcheck");
    card_folder::check_card(rt, folder);
    test_printing::title(rt, b"mixbetter");
    better_folder::file_better(rt, folder);
    card_left(rt, folder, b"better.wcd");
}

// The same in each folder of a table, whose lines are names.
fn each(rt: &HostRuntime, table: &str) {
    for folder in table.lines() {
        test_printing::title(rt, folder.as_bytes());
        programs(rt, folder.as_bytes());
    }
}

// Puts the file of this name in the current folder behind zeros, so that it ends at 40,000 bytes, and the first `length` of 40,001
// bytes into the folder `long`. Cut by its last byte, a book, sheet or card of 40,001 bytes would pass.
fn put_long(rt: &HostRuntime, name: &[u8], length: usize) {
    let mut short = [0u8; 256];
    let mut file = [0u8; 40001];
    let n = file_io::read_file(rt, name, &mut short);
    test_buffers::put_bytes(&mut file, test_buffers::less(40000, n), &short[..n]);
    let path = paths::path_in(b"long", name);
    file_io::replace_file(rt, path.as_bytes(), file_io::first_bytes(&file, length));
}

// The same in the folder `long`, once a file of it is so long.
fn long(rt: &HostRuntime, name: &[u8], length: usize) {
    put_long(rt, name, length);
    test_printing::line(rt, name, length as u64);
    programs(rt, b"long");
}

fn main(rt: HostRuntime) {
    test_printing::title(&rt, b"the current folder");
    programs(&rt, b"");
    each(
        &rt,
        "larger
beyond
spent
by_hand
other_tolerance
other_target
book_refused
sheet_refused
card_refused
no_book
no_sheet
card_a_folder
none
pair_second
pair_first
pair_equal
pair_first_damaged
pair_second_damaged
pair_sheet_refused
pair_no_second
pair_better_a_folder
factored
other_factors
factors_of_another
factors_refused
pair_factors
",
    );
    long(&rt, b"card.wcd", 40000);
    long(&rt, b"card.wcd", 40001);
    long(&rt, b"sheet.wsh", 40001);
    long(&rt, b"sheet.wsh", 40000);
    long(&rt, b"fleet.wbk", 40001);
    long(&rt, b"fleet.wbk", 40000);
}
