// mixlist: prints the listing of the search of fleet.wbk and sheet.wsh, files of the folder that its argument names, or of the current one.
#![tactic(auto)]

fn main(rt: HostRuntime) {
    arguments::in_folder(&rt, b"mixlist", search_folder::list_search);
}
