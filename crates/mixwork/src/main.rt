// mixwork: searches fleet.wbk and sheet.wsh, works a Spent search over by at most the moves that its first argument says, files of the folder that its second argument names, or of the current one, files the card as worked.wcd and prints the listing.
#![tactic(auto)]

fn main(rt: HostRuntime) {
    arguments::in_folder_with(&rt, b"mixwork", b"MOVES", work_folder::file_worked);
}
