// A marked sheet, and calls that are refused before a card is looked at.
use test_buffers::between;
use test_card_printing::written;

// Writes to `room` bytes of a buffer of 80 that hold 9, and prints a sum over the whole buffer.
fn roomed(rt: &HostRuntime, book: &[u8], sheet: &[u8], room: usize) {
    let mut buffer = [9u8; 80];
    test_printing::line(rt, b"room", room as u64);
    let _len = written(rt, book, sheet, &mut buffer, room);
    test_printing::line(rt, b"sum", test_buffers::checksum(&buffer));
}

// Checks a card with a list of 4 slots that hold 7, and prints the list.
fn checked(rt: &HostRuntime, book: &[u8], sheet: &[u8], filed: &[u8]) {
    let mut slots = [7u16; 4];
    test_printing::searched(rt, card::check_card(book, sheet, filed, &mut slots));
    test_printing::slots(rt, &slots, 4);
}

// The card behind front text of 9s, in a file of `size` bytes.
fn front(rt: &HostRuntime, book: &[u8], sheet: &[u8], filed: &[u8], len: usize, size: usize) {
    let mut file = [9u8; 40001];
    test_printing::line(rt, b"front up to", size as u64);
    test_buffers::put_bytes(
        &mut file,
        test_buffers::less(size, len),
        between(filed, 0, len),
    );
    checked(rt, book, sheet, between(&file, 0, size));
}

// A file of 49 bytes, of the most, and of one more.
fn fronts(rt: &HostRuntime, book: &[u8], sheet: &[u8], filed: &[u8], len: usize) {
    front(rt, book, sheet, filed, len, 49);
    front(rt, book, sheet, filed, len, 40000);
    front(rt, book, sheet, filed, len, 40001);
}

// In buffers of every fit.
fn rooms(rt: &HostRuntime, book: &[u8], sheet: &[u8], len: usize) {
    roomed(rt, book, sheet, test_buffers::less(len, 1));
    roomed(rt, book, sheet, len);
    roomed(rt, book, sheet, 60);
    roomed(rt, book, sheet, 0);
}

// One marked sheet.
pub fn marked(rt: &HostRuntime, name: &[u8], book: &[u8], sheet: &[u8]) {
    let mut filed = [9u8; 80];
    test_printing::title(rt, name);
    let len = written(rt, book, sheet, &mut filed, 80);
    test_printing::line(rt, b"sum", test_buffers::checksum(&filed));
    checked(rt, book, sheet, between(&filed, 0, len));
    rooms(rt, book, sheet, len);
    fronts(rt, book, sheet, &filed, len);
    let again = written(rt, book, sheet, &mut filed, len);
    crate::flips::flips(rt, book, sheet, &mut filed, again);
}

// A sheet that is refused: nothing is written, and no card is looked at.
pub fn refused_sheet(rt: &HostRuntime, book: &[u8], sheet: &[u8]) {
    roomed(rt, book, sheet, 80);
    checked(rt, book, sheet, b"");
}

// An empty card with a list of two slots, and of four.
pub fn short_list(rt: &HostRuntime, book: &[u8], sheet: &[u8]) {
    let mut slots = [7u16; 2];
    test_printing::searched(rt, card::check_card(book, sheet, b"", &mut slots));
    checked(rt, book, sheet, b"");
}
