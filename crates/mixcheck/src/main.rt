// mixcheck: checks card.wcd against fleet.wbk and sheet.wsh, files of the folder that its argument names, or of the current one, and prints the listing of the card's answer.
#![tactic(auto)]

fn main(rt: HostRuntime) {
    arguments::in_folder(&rt, b"mixcheck", card_folder::check_card);
}
