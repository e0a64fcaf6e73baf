// mixmerge: files one fleet book from fleet.wbk and bought.wbk as merged.wbk, files of the folder that its argument names, or of the current one, and prints its boats and columns.
#![tactic(auto)]

fn main(rt: HostRuntime) {
    arguments::in_folder(&rt, b"mixmerge", merge_folder::file_merged);
}
