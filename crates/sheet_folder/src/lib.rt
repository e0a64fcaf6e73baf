// The work of mixsheet, in a folder that the caller names. What the system reads and writes no contract can say; test_sheet holds what is
// printed and filed to the reference.
#![tactic(auto)]

use csv_fleet_tokens::Fault;
use csv_sheet_rows::Finding;

// Says on standard error what is wrong with the CSVs. A fault of the fleet's has the line that mixbook has for it.
fn tell_fault(rt: &HostRuntime, fleet: &[u8], csv: &[u8], finding: Finding) {
    if finding.fault == Fault::Fleet {
        let mut output = [0u8; 40000];
        if let Err(found) = csv_book::csv_book(fleet, &mut output) {
            file_io::tell_text(rt, csv_book_text::fleet_fault(fleet, found.into()));
        }
        return;
    }
    file_io::tell_text(rt, csv_sheet_text::sheet_fault(fleet, csv, finding.into()));
}

// Files the sheet of two CSVs in a folder as sheet.wsh, and prints its columns, factors, steps, tolerance and front text.
fn file_made(rt: &HostRuntime, folder: &[u8], fleet: &[u8], csv: &[u8]) {
    let mut output = [0u8; 40000];
    let made = match csv_sheet::csv_sheet(fleet, csv, &mut output) {
        Ok(made) => made,
        Err(finding) => {
            tell_fault(rt, fleet, csv, finding);
            file_io::tell_kept(rt, folder, b"sheet.wsh");
            return;
        }
    };
    if file_io::replace_in(
        rt,
        folder,
        b"sheet.wsh",
        file_io::first_bytes(&output, made.len),
    ) {
        file_io::print(rt, csv_sheet_text::sheet_lines(made));
    }
}

// Says that fleet.csv is not what the fleet.wbk of a folder was made from, where there is one.
fn tell_old_book(rt: &HostRuntime, folder: &[u8], fleet: &[u8]) {
    let mut book = [0u8; 40001];
    if let Some(n) = file_io::found_in(rt, folder, b"fleet.wbk", &mut book) {
        old_files::tell_book(rt, fleet, &book[..n]);
    }
}

// Files the sheet of fleet.csv and sheet.csv of a folder there, and says where fleet.wbk is not of that fleet.csv. The CSVs are read into these buffers.
fn file_read(rt: &HostRuntime, folder: &[u8], fleet: &mut [u8], csv: &mut [u8]) {
    let first = file_io::content_in(rt, folder, b"fleet.csv", fleet);
    let second = file_io::content_in(rt, folder, b"sheet.csv", csv);
    let Some(n) = first else {
        file_io::tell_kept(rt, folder, b"sheet.wsh");
        return;
    };
    let read = file_io::first_bytes(fleet, n);
    tell_old_book(rt, folder, read);
    match second {
        Some(m) => file_made(rt, folder, read, file_io::first_bytes(csv, m)),
        None => file_io::tell_kept(rt, folder, b"sheet.wsh"),
    }
}

// Makes the sheet of fleet.csv and sheet.csv in a folder, files it there as sheet.wsh and prints its lines. The current folder has no
// name. Where a CSV is missing or has a fault, or the sheet cannot be written, an older sheet.wsh stays as it was, and standard error says
// what is wrong. After a fault of a CSV it also says that sheet.wsh is as it was. It says too where a fleet.wbk was not made from fleet.csv.
// One byte more is read than a CSV may have, so that a longer one is refused and not cut.
pub fn file_sheet(rt: &HostRuntime, folder: &[u8]) {
    let mut fleet = [0u8; 200001];
    let mut csv = [0u8; 39001];
    file_read(rt, folder, &mut fleet, &mut csv);
}
