// mixcard: searches fleet.wbk and sheet.wsh, files of the folder that its argument names, or of the current one, files the card as card.wcd and prints the listing.
#![tactic(auto)]

fn main(rt: HostRuntime) {
    arguments::in_folder(&rt, b"mixcard", card_folder::file_card);
}
