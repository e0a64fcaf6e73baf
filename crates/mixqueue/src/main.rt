// mixqueue: runs sheet1.wsh, sheet2.wsh and so on against fleet.wbk on the allowance of steps that its first argument says, files of the folder that its second argument names, or of the current one, and prints a line a sheet.
#![tactic(auto)]

fn main(rt: HostRuntime) {
    arguments::in_folder_with(&rt, b"mixqueue", b"ALLOWANCE", queue_folder::list_queue);
}
