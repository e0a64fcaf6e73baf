// Old files told on standard error: that a CSV in a folder is not what the file beside it was made from. What the system reads and writes no contract
// can say; tests/run_programs.py holds it to the reference.
// A file without a byte is as one that is not there, which the programs tell or refuse. So is a CSV that cannot be read. Of a CSV one byte more is read
// than it may have, so that a longer one is not taken for a part of it.

#![tactic(auto)]
// Says that fleet.csv is not what this book was made from, where there is one.
pub fn tell_book(rt: &HostRuntime, csv: &[u8], book: &[u8]) {
    if book.len() == 0 {
        return;
    }
    if csv_origin::is_book_of(csv, book) {
        return;
    }
    file_io::tell(
        rt,
        b"fleet.csv",
        b" is not what fleet.wbk was made from: run mixbook\n",
    );
}

// Says that sheet.csv is not what this sheet was made from, with fleet.csv, where there is one.
fn tell_sheet(rt: &HostRuntime, fleet: &[u8], csv: &[u8], sheet: &[u8]) {
    if sheet.len() == 0 {
        return;
    }
    if csv_origin::is_sheet_of(fleet, csv, sheet) {
        return;
    }
    file_io::tell(
        rt,
        b"sheet.csv",
        b" is not what sheet.wsh was made from: run mixsheet\n",
    );
}

// Says it of a book in a folder, where fleet.csv is there, which is read into this buffer.
fn tell_book_in(rt: &HostRuntime, folder: &[u8], book: &[u8], csv: &mut [u8]) {
    if let Some(n) = file_io::found_in(rt, folder, b"fleet.csv", csv) {
        tell_book(rt, file_io::first_bytes(csv, n), book);
    }
}

// Says it of a book that was read in a folder, where fleet.csv is there.
pub fn tell_old_book(rt: &HostRuntime, folder: &[u8], book: &[u8]) {
    let mut csv = [0u8; 200001];
    tell_book_in(rt, folder, book, &mut csv);
}

// Says both of a book and a sheet in a folder, where the CSVs are there, which are read into these buffers.
fn tell_both_in(
    rt: &HostRuntime,
    folder: &[u8],
    book: &[u8],
    sheet: &[u8],
    fleet: &mut [u8],
    csv: &mut [u8],
) {
    let first = file_io::found_in(rt, folder, b"fleet.csv", fleet);
    let second = file_io::found_in(rt, folder, b"sheet.csv", csv);
    let read = file_io::first_bytes(fleet, first.unwrap_or(0));
    if first.is_some() {
        tell_book(rt, read, book);
    }
    if let Some(m) = second {
        tell_sheet(rt, read, file_io::first_bytes(csv, m), sheet);
    }
}

// Says both of a book and a sheet that were read in a folder, where the CSVs are there.
pub fn tell_old(rt: &HostRuntime, folder: &[u8], book: &[u8], sheet: &[u8]) {
    let mut fleet = [0u8; 200001];
    let mut csv = [0u8; 39001];
    tell_both_in(rt, folder, book, sheet, &mut fleet, &mut csv);
}
