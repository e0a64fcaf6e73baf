// The search, the card writer and the card check with what a caller may hand in beside the files: a released set and a table of shares.
use method::Released;
use test_buffers::between;

// No set: its bits are not read.
pub fn none() -> Released {
    let boats = [0u8; 32];
    Released {
        limited: false,
        boats,
    }
}

// What a search for C gives, in short, where a table lies beside a flag that says that none is lent, and no set is handed in.
fn unread(rt: &HostRuntime, book: &[u8], sheet: &[u8], table: &[u16]) {
    let mut slots = [7u16; 256];
    let reply = exported_search::dofitrano_search_with(
        book,
        sheet,
        none(),
        false,
        table,
        &mut slots,
    );
    test_printing::word(rt, b"unread");
    test_printing::number(rt, reply.refusal as u64);
    test_printing::number(rt, reply.steps as u64);
    test_printing::number(rt, reply.weight as u64);
    test_printing::line(rt, b"", reply.distance);
}

// The search and its card: what both give back, the slots, and a sum over the card's buffer. Gives back the card's length.
fn found(
    rt: &HostRuntime,
    book: &[u8],
    sheet: &[u8],
    set: Released,
    table: Option<&[u16]>,
    boats: usize,
    filed: &mut [u8],
) -> usize {
    let mut slots = [7u16; 256];
    test_printing::searched(rt, search::search_with(book, sheet, set, table, &mut slots));
    test_printing::slots(rt, &slots, boats % 65536 + 1);
    let n = test_card_printing::print_filed(
        rt,
        written_card::write_card_with(book, sheet, set, table, filed),
    );
    test_printing::line(rt, b"sum", test_buffers::checksum(filed));
    n
}

// The number that refuses a card, 0 where it is accepted.
fn refusal(
    rt: &HostRuntime,
    book: &[u8],
    sheet: &[u8],
    set: Released,
    table: Option<&[u16]>,
    filed: &[u8],
) {
    let mut slots = [7u16; 256];
    let found = card::check_card_with(book, sheet, set, table, filed, &mut slots);
    test_printing::number(rt, test_printing::refusal_number(found));
}

// The card of a table under it, under it without its last share, under another table and under none.
fn checked(
    rt: &HostRuntime,
    book: &[u8],
    sheet: &[u8],
    table: &[u16],
    cut: &[u16],
    other: &[u16],
    filed: &[u8],
) {
    test_printing::word(rt, b"under");
    refusal(rt, book, sheet, none(), Some(table), filed);
    refusal(rt, book, sheet, none(), Some(cut), filed);
    refusal(rt, book, sheet, none(), Some(other), filed);
    refusal(rt, book, sheet, none(), None, filed);
}

// The card of a search without a set: its length.
fn put_whole(book: &[u8], sheet: &[u8], table: Option<&[u16]>, output: &mut [u8]) -> usize {
    match written_card::write_card_with(book, sheet, none(), table, output) {
        Err(_) => 0,
        Ok(card) => card.size,
    }
}

// Everything with a table: the search, its card, the card checked, and the card of a search without a table.
pub fn under(
    rt: &HostRuntime,
    book: &[u8],
    sheet: &[u8],
    table: &[u16],
    cut: &[u16],
    other: &[u16],
    boats: usize,
) {
    let mut filed = [9u8; 1060];
    let mut plain = [9u8; 1060];
    let n = found(rt, book, sheet, none(), Some(table), boats, &mut filed);
    unread(rt, book, sheet, table);
    checked(rt, book, sheet, table, cut, other, between(&filed, 0, n));
    let m = put_whole(book, sheet, None, &mut plain);
    refusal(rt, book, sheet, none(), Some(table), between(&plain, 0, m));
    test_printing::word(rt, b"\n");
}

// Everything with a set: the search, its card, the card under the set, under another and under none, and the card of the whole of `all`, a book
// with the same released rows.
pub fn among(
    rt: &HostRuntime,
    book: &[u8],
    all: &[u8],
    sheet: &[u8],
    set: Released,
    other: Released,
    table: Option<&[u16]>,
    boats: usize,
) {
    let mut filed = [9u8; 1060];
    let mut whole = [9u8; 1060];
    let n = found(rt, book, sheet, set, table, boats, &mut filed);
    test_printing::word(rt, b"among");
    refusal(rt, book, sheet, set, table, between(&filed, 0, n));
    refusal(rt, book, sheet, other, table, between(&filed, 0, n));
    refusal(rt, all, sheet, none(), table, between(&filed, 0, n));
    let m = put_whole(all, sheet, table, &mut whole);
    refusal(rt, book, sheet, set, table, between(&whole, 0, m));
    test_printing::word(rt, b"\n");
}
