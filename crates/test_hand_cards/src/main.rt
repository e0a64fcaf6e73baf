// Cards made by hand for fleet P: true ones that no search writes, and ones that are nearly true.
// The expected output is made by tests/expected/test_hand_cards.py.
#![tactic(auto)]

use test_buffers::between;

// Puts fleet P: the boats (0,0), (4,0) and (0,4), then the trailer.
fn put_book(buffer: &mut [u8]) -> usize {
    test_tables::put_fields(
        buffer,
        0,
        b"",
        b"OOAOOAKNCW",
        b"2222224224",
        b"O0 A4 K12 N3 C2 W827015767",
    )
}

// Puts the sheet of a line: the target (X,X), then the trailer, of which M is the steps.
fn put_sheet(buffer: &mut [u8], line: &[u8]) -> usize {
    test_tables::put_fields(
        buffer,
        0,
        line,
        b"XXHIMJW",
        b"2242244",
        b"X1 H4 I2 M9 J1 W826823511",
    )
}

// Puts the trailer of a line's card.
fn put_trailer(file: &mut [u8], at: usize, line: &[u8]) -> usize {
    test_tables::put_fields(
        file,
        at,
        line,
        b"KVSTEGNCL",
        b"422488224",
        b"K12 V1 S3 T1 E8 G32 N3 C2 L843334487",
    )
}

// Puts pairs, each a digit for the boat and one for its shares.
fn put_pairs(file: &mut [u8], pairs: &[u8]) -> usize {
    let mut next = 0;
    for i in 0..pairs.len() {
        next = test_buffers::put_number(file, next, test_buffers::wide(pairs[i]) % 16, 2);
    }
    next
}

// Puts the pairs of a line, those behind P or those of equal shares.
fn put_body(file: &mut [u8], line: &[u8]) -> usize {
    let pairs = test_tables::word(line, b'P');
    if pairs.len() == 0 {
        return put_pairs(file, b"021222");
    }
    put_pairs(file, pairs)
}

// Puts the card of a line.
fn put_card(file: &mut [u8], line: &[u8]) -> usize {
    let at = put_body(file, line);
    put_trailer(file, at, line)
}

// Checks a card with a list of 4 slots that hold 7, and prints the list.
fn checked(rt: &HostRuntime, book: &[u8], sheet: &[u8], filed: &[u8]) {
    let mut slots = [7u16; 4];
    test_printing::searched(rt, card::check_card(book, sheet, filed, &mut slots));
    test_printing::slots(rt, &slots, 4);
}

// Checks the last bytes of a line's card, as many as B says.
fn check(rt: &HostRuntime, line: &[u8]) {
    let mut book = [0u8; 40];
    let mut sheet = [0u8; 40];
    let mut file = [0u8; 80];
    let n = put_book(&mut book);
    let m = put_sheet(&mut sheet, line);
    let end = put_card(&mut file, line);
    let start = test_buffers::less(end, test_tables::field(line, b'B', 48) as usize);
    test_printing::title(rt, test_tables::name(line));
    checked(
        rt,
        between(&book, 0, n),
        between(&sheet, 0, m),
        between(&file, start, end),
    );
}

// Checks the card of each line.
fn check_all(rt: &HostRuntime, table: &str) {
    for line in table.lines() {
        check(rt, line.as_bytes());
    }
}

// True cards that no search writes; then 31 to 35, the trailer.
// Letters: P the pairs, K the back count, V the verdict, S the steps, T the tolerance, E the distance, G the gap, N the boats, C the
// columns, L the letters as a number. Left out are those of the card of equal shares: two for each boat, Within after 3 steps
// at (1,1).
fn trailers(rt: &HostRuntime) {
    check_all(
        rt,
        "equal shares:
one share at the only step: P11 K4 V3 S1 E10 G16 B40 M1
far target: P1323 K8 V2 E648 G0 B44 X5
35 bytes: B35
36 bytes: B36
47 bytes: B47
letters 1: L843334488
letters 256: L843334743
letters 65536: L843400023
letters 16777216: L860111703
letters before: L809780055
2 boats: N2
4 boats: N4
3 columns: C3
verdict 0: V0
verdict 4: V4
steps 0: S0
steps 10: S10
steps 3 of 3: M3
steps 3 of 2: M2
back 0: K0
back 11: K11
back 13: K13
back 16: P01021222 K16 B52
back 12 of 16: P79021222 B52
back 8: K8
",
    );
}

// 36 and 37, the pairs; 38 and 39, the numbers.
fn pairs_and_numbers(rt: &HostRuntime) {
    check_all(
        rt,
        "boats 1 0 2: P120222
boats 0 0 2: P020222
boats 0 1 3: P021232
shares 0 4 2: P001422
shares 2 2 3: P021223
shares 1 2 2: P011222
three boats in two steps: P011121 S2 E2 G8
distance 9: E9
distance 7: E7
gap 33: G33
gap 31: G31
distance and 2^32: E4294967304
verdict 2: V2
verdict 3: V3
spent before the last step: P11 K4 V3 S1 E10 G16 B40 M2
tolerance 0: T0
tolerance 2: T2
gap 33 and tolerance 2: G33 T2
",
    );
}

// Both tests of Beyond: WCD1, L826557271, has the former, and WCD2 the sharper. J is the sheet's tolerance.
// At (5,5) boat 1 has E = 26 and G = 16 after step 1, boats 1 and 2 have E = 170 and G = 32 after step 2; boat 0 alone has E = 50
// and G = 20, where (E - G)² is 18 × E. At (2,2) its E is its G, at (1,1) below it.
fn editions(rt: &HostRuntime) {
    check_all(
        rt,
        "former equal shares: L826557271
former far target: P1323 K8 V2 E648 G0 B44 X5 L826557271
sharper first step beyond: P11 K4 V2 S1 E26 G16 B40 X5
former first step beyond: P11 K4 V2 S1 E26 G16 B40 X5 L826557271
sharper first step spent of one: P11 K4 V3 S1 E26 G16 B40 X5 M1
former first step spent of one: P11 K4 V3 S1 E26 G16 B40 X5 M1 L826557271
sharper second step: P1122 K8 V2 S2 E170 G32 B44 X5
former second step: P1122 K8 V2 S2 E170 G32 B44 X5 L826557271
former tolerance 11: P1122 K8 V2 S2 E170 G32 B44 X5 J11 T11 L826557271
former tolerance 12: P1122 K8 V2 S2 E170 G32 B44 X5 J12 T12 L826557271
sharper tolerance 12: P1122 K8 V2 S2 E170 G32 B44 X5 J12 T12
sharper tolerance 13: P1122 K8 V2 S2 E170 G32 B44 X5 J13 T13
sharper one off: P01 K4 V2 S1 E50 G20 B40 X5 J17 T17
sharper equality: P01 K4 V2 S1 E50 G20 B40 X5 J18 T18
sharper equality spent of one: P01 K4 V3 S1 E50 G20 B40 X5 J18 T18 M1
sharper distance as the gap: P01 K4 V2 S1 E8 G8 B40 X2 J0 T0
sharper distance as the gap spent of one: P01 K4 V3 S1 E8 G8 B40 X2 J0 T0 M1
sharper distance below the gap: P01 K4 V2 S1 E2 G4 B40
former distance below the gap: P01 K4 V2 S1 E2 G4 B40 L826557271
",
    );
}

fn main(rt: HostRuntime) {
    trailers(&rt);
    pairs_and_numbers(&rt);
    editions(&rt);
}
