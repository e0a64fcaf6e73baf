// mixsheet: makes the sheet sheet.wsh of the spreadsheets fleet.csv and sheet.csv, files of the folder that its argument names, or of the current one, and prints what it asks for.
#![tactic(auto)]

fn main(rt: HostRuntime) {
    arguments::in_folder(&rt, b"mixsheet", sheet_folder::file_sheet);
}
