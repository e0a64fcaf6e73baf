// mixedition: converts the sheet sheet.wsh, a file of the folder that its argument names, or of the current one, into its other edition other.wsh, and prints the edition and its bytes.
#![tactic(auto)]

fn main(rt: HostRuntime) {
    arguments::in_folder(&rt, b"mixedition", edition_folder::file_other);
}
