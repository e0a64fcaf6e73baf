// The marked sheets, without factors and with them, and the limits of the files, through the search itself: the answer or the refusal, and the share list.
// The files of data/ are made by tests/make_data.py, the expected output by tests/expected/test_search.py.
#![tactic(auto)]

ghost use Rattle.std.specs.Prelude.{◌≡◌, ◌<◌};
ghost use Rattle.test_buffers.specs.Buffers.{checksum};

use test_buffers::between;

// Searches with the first `length` slots of a list.
fn search_in(rt: &HostRuntime, book: &[u8], sheet: &[u8], slots: &mut [u16], length: usize) {
    if slots.len() < length {
        return;
    }
    let start = 0;
    test_printing::searched(rt, search::search(book, sheet, &mut slots[start..length]));
}

// A slot in a wider type.
fn wide(x: u16) -> u64
    ensures value { result ≡ x }
    ensures upper_bound { result < 65536 }
{
    x as u64
}

// A number that depends on every slot and its place.
fn checksum(slots: &[u16]) -> u64
    ensures { result ≡ checksum slots.now }
{
    let mut sum = 0;
    for slot in slots {
        sum = (257 * sum + wide(*slot)) % 1000003;
    }
    sum
}

// Searches with a list of `length` slots that hold 7, of 260, and prints its first 12 slots and a sum over all of them.
fn searched(rt: &HostRuntime, book: &[u8], sheet: &[u8], length: usize) {
    let mut slots = [7u16; 260];
    search_in(rt, book, sheet, &mut slots, length);
    test_printing::slots(rt, &slots, 12);
    test_printing::line(rt, b"sum", checksum(&slots));
}

// The same of two files of the current folder, which are the name of the case. L is the length of the list, 12 where it is left out.
fn files(rt: &HostRuntime, line: &[u8]) {
    let mut book = [0u8; 40001];
    let mut sheet = [0u8; 40001];
    let names = test_tables::name(line);
    let space = test_tables::find(names, 0, b' ');
    test_printing::title(rt, names);
    let n = file_io::read_file(rt, between(names, 0, space), &mut book);
    let m = file_io::read_file(rt, test_tables::word(names, b' '), &mut sheet);
    let length = test_tables::field(line, b'L', 12) as usize;
    searched(rt, &book[..n], &sheet[..m], length);
}

// The same of each line of a table.
fn each(rt: &HostRuntime, table: &str) {
    for line in table.lines() {
        files(rt, line.as_bytes());
    }
}

// The file in a buffer's first `n` bytes behind zeros, `size` bytes in all.
fn long_file(bytes: &[u8], n: usize, size: usize) -> [u8; 40001] {
    let mut file = [0u8; 40001];
    test_buffers::put_bytes(&mut file, test_buffers::less(size, n), between(bytes, 0, n));
    file
}

// The first marked sheet with front text that makes one of its files `size` bytes long.
fn with_front(rt: &HostRuntime, size: usize) {
    let mut book = [0u8; 256];
    let mut sheet = [0u8; 256];
    let n = file_io::read_file(rt, b"p.wbk", &mut book);
    let m = file_io::read_file(rt, b"a.wsh", &mut sheet);
    let long_book = long_file(&book, n, size);
    let long_sheet = long_file(&sheet, m, size);
    test_printing::line(rt, b"front up to", size as u64);
    searched(rt, between(&long_book, 0, size), between(&sheet, 0, m), 12);
    searched(rt, between(&book, 0, n), between(&long_sheet, 0, size), 12);
}

// The marked sheets, a to j and with factors k to t, then each limit and one more than it.
fn marked_and_limits(rt: &HostRuntime) {
    each(
        rt,
        "p.wbk a.wsh:
p.wbk b.wsh:
p.wbk c.wsh:
p.wbk d.wsh:
e.wbk e.wsh:
e.wbk f.wsh:
g.wbk g.wsh:
h.wbk h.wsh:
h.wbk i.wsh:
p.wbk j.wsh:
p.wbk k.wsh:
p.wbk l.wsh:
m.wbk m.wsh:
m.wbk n.wsh:
p.wbk o.wsh:
p.wbk p.wsh:
p.wbk q.wsh:
r.wbk r.wsh:
r.wbk s.wsh:
p.wbk t.wsh:
boats256.wbk columns1.wsh: L256
boats257.wbk columns1.wsh: L260
columns64.wbk columns64.wsh:
columns65.wbk columns64.wsh:
h.wbk steps360.wsh:
h.wbk steps361.wsh:
h.wbk h.wsh:
value2001.wbk h.wsh:
low2001.wbk h.wsh:
h.wbk value2001.wsh:
h.wbk tolerance.wsh:
h.wbk tolerance1.wsh:
",
    );
}

// Share lists: as long as the boats, one slot shorter, none; files that are missing; both files refused.
fn lists(rt: &HostRuntime) {
    each(
        rt,
        "p.wbk a.wsh: L3
p.wbk a.wsh: L2
p.wbk a.wsh: L0
boats256.wbk columns1.wsh: L255
none.wbk a.wsh:
p.wbk none.wsh:
value2001.wbk j.wsh: L0
p.wbk columns1.wsh:
",
    );
}

fn main(rt: HostRuntime) {
    marked_and_limits(&rt);
    with_front(&rt, 40000);
    with_front(&rt, 40001);
    lists(&rt);
}
