// mixbetter: files the better of first.wcd and second.wcd, for fleet.wbk and sheet.wsh, as better.wcd, all in the folder that its argument names or in the current one, and
// prints its listing.
#![tactic(auto)]

fn main(rt: HostRuntime) {
    arguments::in_folder(&rt, b"mixbetter", better_folder::file_better);
}
