// leanlist: prints how many cards rest on each boat and which boat most cards of each stretch of 12 rest on, of fleet.wbk, card1.wcd with sheet1.wsh and so on, files of the folder that its argument names, or of the current one.
#![tactic(auto)]

fn main(rt: HostRuntime) {
    arguments::in_folder(&rt, b"leanlist", lean_folder::list_boats);
}
