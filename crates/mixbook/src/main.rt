// mixbook: makes the fleet book fleet.wbk of the spreadsheet fleet.csv, files of the folder that its argument names, or of the current one, and prints its boats, columns and front text.
#![tactic(auto)]

fn main(rt: HostRuntime) {
    arguments::in_folder(&rt, b"mixbook", book_folder::file_book);
}
