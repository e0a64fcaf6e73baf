// The fleet book and the sheet of a case.
ghost use Rattle.test_buffers.specs.Buffers.{Puts};
ghost use Rattle.test_tables.specs.Tables.{fields};
ghost use Rattle.test_card_cases.specs.Inputs.{fleet, sheet};

use test_tables::field;

// Puts a file of these fields.
fn put_file(buffer: &mut [u8], letters: &[u8], sizes: &[u8], line: &[u8]) -> usize
    ensures { Puts buffer.old 0 (fields line.now line.now letters.now sizes.now) buffer.new result }
{
    test_tables::put_fields(buffer, 0, line, letters, sizes, line)
}

// Puts fleet P, which has the boats (0,0), (4,0) and (0,4); or (0,0) once; or (0,0) twice; or -2000 and 2000. Then the trailer.
pub fn put_fleet(buffer: &mut [u8], line: &[u8]) -> usize
    ensures { Puts buffer.old 0 (fleet line.now) buffer.new result }
{
    let kind = field(line, b'F', 0);
    if kind == 0 {
        return put_file(
            buffer,
            b"OOAOOAKNCW",
            b"2222224224",
            b"O0 A4 K12 N3 C2 W827015767",
        );
    }
    if kind == 1 {
        return put_file(buffer, b"OOKNCW", b"224224", b"O0 K4 N1 C2 W827015767");
    }
    if kind == 2 {
        return put_file(buffer, b"OOOOKNCW", b"22224224", b"O0 K8 N2 C2 W827015767");
    }
    put_file(
        buffer,
        b"ABKNCW",
        b"224224",
        b"A63536 B2000 K4 N2 C1 W827015767",
    )
}

// Puts a sheet. The values of its target stand side by side, as one number would.
pub fn put_sheet(buffer: &mut [u8], line: &[u8]) -> usize
    ensures { Puts buffer.old 0 (sheet line.now) buffer.new result }
{
    let columns = field(line, b'H', 2);
    let x = field(line, b'X', 1) % 65536;
    let y = field(line, b'Y', 1) % 65536;
    let at = test_buffers::put_number(buffer, 0, x + 65536 * y, 2 * (columns % 3));
    test_buffers::put_sheet_trailer(
        buffer,
        at,
        columns,
        field(line, b'M', 9),
        field(line, b'D', 1),
    )
}
