// The work of mixbook, in a folder that the caller names. What the system reads and writes no contract can say; test_book holds what is
// printed and filed to the reference.

#![tactic(auto)]
// Files the book of a CSV in a folder as fleet.wbk, and prints its boats, columns and front text. The book is made in this buffer.
fn file_made(rt: &HostRuntime, folder: &[u8], csv: &[u8], output: &mut [u8]) {
    let made = match csv_book::csv_book(csv, output) {
        Ok(made) => made,
        Err(finding) => {
            file_io::tell_text(rt, csv_book_text::fleet_fault(csv, finding.into()));
            file_io::tell_kept(rt, folder, b"fleet.wbk");
            return;
        }
    };
    if file_io::replace_in(
        rt,
        folder,
        b"fleet.wbk",
        file_io::first_bytes(output, made.len),
    ) {
        file_io::print(rt, csv_book_text::book_lines(made));
    }
}

// The same of fleet.csv there, which is read into the first of these buffers.
fn file_read(rt: &HostRuntime, folder: &[u8], csv: &mut [u8], output: &mut [u8]) {
    match file_io::content_in(rt, folder, b"fleet.csv", csv) {
        Some(n) => file_made(rt, folder, file_io::first_bytes(csv, n), output),
        None => file_io::tell_kept(rt, folder, b"fleet.wbk"),
    }
}

// Makes the book of fleet.csv in a folder, files it there as fleet.wbk and prints its boats, columns and front text. The current folder
// has no name. Where the CSV is missing or has a fault, or the book cannot be written, an older fleet.wbk stays as it was, and standard
// error says what is wrong. After a fault of the CSV it also says that fleet.wbk is as it was. One byte more is read than a CSV may have, so
// that a longer one is refused and not cut.
pub fn file_book(rt: &HostRuntime, folder: &[u8]) {
    let mut csv = [0u8; 200001];
    let mut output = [0u8; 40000];
    file_read(rt, folder, &mut csv, &mut output);
}
