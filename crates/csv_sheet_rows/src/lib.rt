// The rows of a sheet's CSV: what each is by its first field, and the first fault with its place.
//
// Helpers for other crates, whose callers prove what they require: kind_of, kind_at, row_of, read, cell_at, columns, last_row, rows_fault. without asks nothing of its caller.
#![tactic(auto)]

ghost use Rattle.std.specs.Prelude.{List, ◌≡◌, ℕ, ◌≤◌, length};
ghost use Rattle.csv_bytes.specs.Cells.{read};
ghost use Rattle.csv_fleet_tokens.specs.Faults.{fault_number, result_number};
ghost use Rattle.csv_cells.specs.Cells.{cell_text};
ghost use Rattle.csv_slots.specs.Slots.{Room, Held};
ghost use Rattle.csv_sheet_rows.specs.Numbers.{kind_number};
ghost use Rattle.csv_sheet_rows.specs.Kinds.{kind_of, kind_at, place, row_of};
ghost use Rattle.csv_sheet_rows.specs.Findings.{numbered, found_number};
ghost use Rattle.csv_sheet_rows.specs.Rows.{count_of, least, most, is_out, number_fault, is_left_out, is_open, value_fault, field_finding, found_in, many_finding, numbers_finding, kind_finding, row_finding, rows_finding, sheet_names, nameless, names_finding, last_row, without, missing_finding, content_finding, rows_fault};

use csv_bytes::Cell;
use csv_fleet_tokens::Fault;

// What a row is, each with the number that the definitions give it. The last three are two rows for the report and one without text.
#[derive(Clone, Copy, Debug, PartialEq, Eq)]
pub enum Kind {
    Hull = 0,
    Units = 1,
    Factors = 2,
    Steps = 3,
    Tolerance = 4,
    // a tolerance for each column
    Each = 5,
    Displacement = 6,
    Length = 7,
    Blank = 8,
}

// The first fault with its line, row and field, all 0 where it has no place.
#[derive(Clone, Copy, Debug, PartialEq, Eq)]
pub struct Finding {
    pub fault: Fault,
    pub line: usize,
    pub row: usize,
    pub field: usize,
}

// What a row is by its first field.
pub fn kind_of(name: &[u8]) -> Kind
    ensures { kind_number result ≡ kind_of name.now }
{
    if equal_bytes::is_same(name, b"unit") {
        return Kind::Units;
    }
    if equal_bytes::is_same(name, b"factor") {
        return Kind::Factors;
    }
    if equal_bytes::is_same(name, b"steps") {
        return Kind::Steps;
    }
    if equal_bytes::is_same(name, b"tolerance") {
        return Kind::Tolerance;
    }
    if equal_bytes::is_same(name, b"tolerance each") {
        return Kind::Each;
    }
    if equal_bytes::is_same(name, b"displacement t") {
        return Kind::Displacement;
    }
    if equal_bytes::is_same(name, b"length m") {
        return Kind::Length;
    }
    Kind::Hull
}

// What a row is. All its fields are looked at only where the first is empty.
pub fn kind_at(csv: &[u8], row: usize) -> Kind
    requires { length csv.now ≤ 200000 }
    ensures { kind_number result ≡ kind_at row csv.now }
{
    let mut name = [0u8; 200];
    let n = csv_cells::put_cell(csv, row, 0, &mut name);
    if n != 0 {
        return kind_of(&name[..n]);
    }
    if csv_cells::width(csv, row) == 0 {
        return Kind::Blank;
    }
    Kind::Hull
}

// The two kinds of tolerance stand for each other.
fn place(kind: Kind) -> Kind
    ensures { kind_number result ≡ place (kind_number kind) }
{
    match kind {
        Kind::Each => Kind::Tolerance,
        _ => kind,
    }
}

// What a row is, by the slots of the first 16 rows.
fn kind_in(sizes: &[u8], cells: &[u8], row: usize) -> Kind
    requires room { Room 16 sizes.now cells.now }
    requires row_bound { row ≤ 15 }
    ensures { (csv : List ℕ) → Held 0 16 csv sizes.now cells.now → kind_number result ≡ kind_at row csv }
{
    let name = csv_slots::cell(cells, sizes, 65 * row);
    if name.len() != 0 {
        return kind_of(name);
    }
    if csv_slots::width_in(sizes, row) == 0 {
        return Kind::Blank;
    }
    Kind::Hull
}

// The last row from 1 to `n` that stands for a kind, 0 if there is none. All rows are read in one pass.
pub fn row_of(csv: &[u8], kind: Kind, n: usize) -> usize
    requires csv_len_bound { length csv.now ≤ 200000 }
    requires n_bound { n ≤ 15 }
    ensures { result ≡ row_of (kind_number kind) n csv.now }
{
    let mut sizes = [0u8; 1040];
    let mut cells = [0u8; 208000];
    csv_slots::put_rows(csv, 0, 16, &mut sizes, &mut cells);
    for row in (1..=n).rev() {
        if place(kind_in(&sizes, &cells, row)) == kind {
            return row;
        }
    }
    0
}

// The number that a text says.
pub fn read(text: &[u8]) -> Cell
    requires { length text.now ≤ 200000 }
    ensures { result ≡ read text.now }
{
    let mut cell = Cell::empty();
    for byte in text {
        cell = cell.with_byte(*byte);
    }
    cell
}

// The number in a field of a row.
pub fn cell_at(csv: &[u8], row: usize, field: usize) -> Cell
    requires { length csv.now ≤ 200000 }
    ensures { result ≡ read (cell_text row field csv.now) }
{
    let mut text = [0u8; 200];
    let n = csv_cells::put_cell(csv, row, field, &mut text);
    read(&text[..n])
}

// How many bytes a field has.
fn size_at(csv: &[u8], row: usize, field: usize) -> usize
    requires { length csv.now ≤ 200000 }
    ensures { result ≡ length (cell_text row field csv.now) }
{
    let mut text = [0u8; 200];
    csv_cells::put_cell(csv, row, field, &mut text)
}

// How many numbers a row has.
#[tactic(auto, unfolding(crate::specs::Rows::count_of))]
fn count_of(kind: Kind, columns: usize) -> usize
    ensures { result ≡ count_of (kind_number kind) columns }
{
    match kind {
        Kind::Hull | Kind::Factors => columns,
        Kind::Steps | Kind::Tolerance | Kind::Each => 1,
        Kind::Units | Kind::Displacement | Kind::Length | Kind::Blank => 0,
    }
}

// The least number that a row may have.
#[tactic(auto, unfolding(crate::specs::Rows::least))]
fn least(kind: Kind) -> u32
    ensures { result ≡ least (kind_number kind) }
{
    match kind {
        Kind::Steps => 1,
        _ => 0,
    }
}

// The largest number that a row may have, without its sign.
#[tactic(auto, unfolding(crate::specs::Rows::most))]
fn most(kind: Kind) -> u32
    ensures { result ≡ most (kind_number kind) }
{
    match kind {
        Kind::Hull => 2000,
        Kind::Factors => 64,
        Kind::Steps => files::MOST_STEPS,
        Kind::Tolerance => 1024000000,
        _ => 32000,
    }
}

// Whether a number is out of range: only a hull's may be below 0.
#[tactic(auto, unfolding(crate::specs::Rows::is_out))]
fn is_out(kind: Kind, cell: Cell) -> bool
    ensures { result ≡ is_out (kind_number kind) cell }
{
    if most(kind) < cell.magnitude {
        return true;
    }
    if cell.magnitude < least(kind) {
        return true;
    }
    if kind == Kind::Hull {
        return false;
    }
    if cell.negative {
        return cell.magnitude != 0;
    }
    false
}

// What is wrong with a number of a row.
#[tactic(auto, unfolding(crate::specs::Rows::number_fault))]
fn number_fault(kind: Kind, cell: Cell) -> Result<(), Fault>
    ensures { result_number result ≡ number_fault (kind_number kind) cell }
{
    if cell.size == 0 {
        return Err(Fault::NoValue);
    }
    if !cell.is_number() {
        return Err(Fault::NotWhole);
    }
    if is_out(kind, cell) {
        return Err(Fault::OutOfRange);
    }
    Ok(())
}

// Whether a column is left out: it has the factor 0. `factors` is the row of factors, 0 where there is none.
fn is_left_out(factors: usize, factor: Cell) -> bool
    ensures { result ≡ is_left_out factors factor }
{
    if factors == 0 {
        return false;
    }
    if factor.is_number() {
        return factor.magnitude == 0;
    }
    false
}

// Whether a hull's value is left open.
#[tactic(auto, unfolding(crate::specs::Rows::is_open))]
fn is_open(kind: Kind, factors: usize, value: Cell, factor: Cell) -> bool
    ensures { result ≡ is_open (kind_number kind) factors value factor }
{
    if kind != Kind::Hull {
        return false;
    }
    if value.size != 0 {
        return false;
    }
    is_left_out(factors, factor)
}

// What is wrong with a number of a row: a hull may have none in a column that is left out.
fn value_fault(kind: Kind, factors: usize, value: Cell, factor: Cell) -> Result<(), Fault>
    ensures { result_number result ≡ value_fault (kind_number kind) factors value factor }
{
    if is_open(kind, factors, value, factor) {
        return Ok(());
    }
    number_fault(kind, value)
}

// The number in a field of the one row whose fields are in the slots.
fn read_slot(sizes: &[u8], cells: &[u8], field: usize) -> Cell
    requires room { Room 1 sizes.now cells.now }
    requires field_bound { field ≤ 64 }
    ensures { (row : ℕ) (csv : List ℕ) → Held row 1 csv sizes.now cells.now → result ≡ read (cell_text row field csv) }
{
    let text = csv_slots::cell(cells, sizes, field);
    read(text)
}

// A fault with its place.
fn found_in(csv: &[u8], row: usize, field: usize, fault: Fault) -> Finding
    requires { length csv.now ≤ 200000 }
    ensures { numbered result ≡ found_in row field (fault_number fault) csv.now }
{
    Finding {
        fault,
        line: csv_cells::line_of(csv, row),
        row,
        field,
    }
}

// What is wrong with the first of fields 1 to `n` that is faulty.
fn field_finding(
    csv: &[u8],
    kind: Kind,
    factors: usize,
    row: usize,
    n: usize,
) -> Result<(), Finding>
    requires csv_len_bound { length csv.now ≤ 200000 }
    requires n_bound { n ≤ 64 }
    ensures { found_number result ≡ field_finding (kind_number kind) factors row n csv.now }
{
    let mut sizes = [0u8; 65];
    let mut cells = [0u8; 13000];
    csv_slots::put_rows(csv, row, 1, &mut sizes, &mut cells);
    let mut factor_sizes = [0u8; 65];
    let mut factor_cells = [0u8; 13000];
    csv_slots::put_rows(csv, factors, 1, &mut factor_sizes, &mut factor_cells);
    for field in 1..=n {
        let value = read_slot(&sizes, &cells, field);
        let factor = read_slot(&factor_sizes, &factor_cells, field);
        if let Err(fault) = value_fault(kind, factors, value, factor) {
            return Err(found_in(csv, row, field, fault));
        }
    }
    Ok(())
}

// Whether a row has more text than its `n` numbers.
fn many_finding(csv: &[u8], n: usize, row: usize) -> Result<(), Finding>
    requires csv_len_bound { length csv.now ≤ 200000 }
    requires n_bound { n ≤ 64 }
    ensures { found_number result ≡ many_finding n row csv.now }
{
    if n + 1 < csv_cells::width(csv, row) {
        return Err(found_in(csv, row, n + 1, Fault::ManyValues));
    }
    Ok(())
}

// What is wrong with the `n` numbers of a row.
fn numbers_finding(
    csv: &[u8],
    kind: Kind,
    factors: usize,
    n: usize,
    row: usize,
) -> Result<(), Finding>
    requires csv_len_bound { length csv.now ≤ 200000 }
    requires n_bound { n ≤ 64 }
    ensures { found_number result ≡ numbers_finding (kind_number kind) factors n row csv.now }
{
    if n == 0 {
        return Ok(());
    }
    field_finding(csv, kind, factors, row, n)?;
    many_finding(csv, n, row)
}

// What is wrong with a row of a kind, whose kind may not stand before it.
fn kind_finding(
    csv: &[u8],
    kind: Kind,
    factors: usize,
    columns: usize,
    row: usize,
) -> Result<(), Finding>
    requires csv_len_bound { length csv.now ≤ 200000 }
    requires columns_bound { columns ≤ 64 }
    requires le_row { 1 ≤ row }
    requires row_bound { row ≤ 15 }
    ensures { found_number result ≡ kind_finding (kind_number kind) factors columns row csv.now }
{
    if kind == Kind::Blank {
        return Ok(());
    }
    if row_of(csv, place(kind), row - 1) != 0 {
        return Err(found_in(csv, row, 0, Fault::Again));
    }
    if size_at(csv, row, 0) == 0 {
        return Err(found_in(csv, row, 0, Fault::Nameless));
    }
    numbers_finding(csv, kind, factors, count_of(kind, columns), row)
}

// What is wrong with a row after that of the column names.
fn row_finding(csv: &[u8], factors: usize, columns: usize, row: usize) -> Result<(), Finding>
    requires csv_len_bound { length csv.now ≤ 200000 }
    requires columns_bound { columns ≤ 64 }
    requires le_row { 1 ≤ row }
    requires row_bound { row ≤ 15 }
    ensures { found_number result ≡ row_finding factors columns row csv.now }
{
    kind_finding(csv, kind_at(csv, row), factors, columns, row)
}

// What is wrong with the first of rows 1 to `n` that is faulty; `factors` is the row of factors, 0 where there is none.
fn rows_finding(csv: &[u8], factors: usize, columns: usize, n: usize) -> Result<(), Finding>
    requires csv_len_bound { length csv.now ≤ 200000 }
    requires columns_bound { columns ≤ 64 }
    requires n_bound { n ≤ 15 }
    ensures { found_number result ≡ rows_finding factors columns n csv.now }
{
    for row in 1..=n {
        row_finding(csv, factors, columns, row)?;
    }
    Ok(())
}

// The columns of a sheet.
pub fn columns(csv: &[u8]) -> usize
    requires { length csv.now ≤ 200000 }
    ensures value { result ≡ sheet_names csv.now }
    ensures upper_bound { result ≤ 64 }
{
    let fields = csv_cells::width(csv, 0);
    if fields == 0 {
        return 0;
    }
    fields - 1
}

// The first of columns 1 to `n` without a name, 0 if each has one.
fn nameless(csv: &[u8], n: usize) -> usize
    requires csv_len_bound { length csv.now ≤ 200000 }
    requires n_bound { n ≤ 64 }
    ensures { result ≡ nameless n csv.now }
{
    let mut sizes = [0u8; 65];
    let mut cells = [0u8; 13000];
    csv_slots::put_rows(csv, 0, 1, &mut sizes, &mut cells);
    for field in 1..=n {
        if sizes[field] == 0 {
            return field;
        }
    }
    0
}

// What is wrong with the column names.
fn names_finding(csv: &[u8]) -> Result<(), Finding>
    requires { length csv.now ≤ 200000 }
    ensures { found_number result ≡ names_finding csv.now }
{
    let n = columns(csv);
    if n == 0 {
        return Err(found_in(csv, 0, 0, Fault::Columnless));
    }
    let field = nameless(csv, n);
    if field == 0 {
        return Ok(());
    }
    Err(found_in(csv, 0, field, Fault::Nameless))
}

// The number of the last row.
pub fn last_row(csv: &[u8]) -> usize
    requires { length csv.now ≤ 200000 }
    ensures { result ≡ last_row csv.now }
{
    let place = csv_cells::last_place(csv);
    if place.row == 0 {
        return 0;
    }
    place.row - 1
}

// A fault of the whole CSV.
pub fn without(fault: Fault) -> Finding
    ensures { numbered result ≡ without (fault_number fault) }
{
    Finding {
        fault,
        line: 0,
        row: 0,
        field: 0,
    }
}

// Which row is missing among the first `n` after that of the names.
fn missing_finding(csv: &[u8], n: usize) -> Result<(), Finding>
    requires csv_len_bound { length csv.now ≤ 200000 }
    requires n_bound { n ≤ 15 }
    ensures { found_number result ≡ missing_finding n csv.now }
{
    if row_of(csv, Kind::Hull, n) == 0 {
        return Err(without(Fault::NoHull));
    }
    if row_of(csv, Kind::Steps, n) == 0 {
        return Err(without(Fault::NoSteps));
    }
    if row_of(csv, Kind::Tolerance, n) == 0 {
        return Err(without(Fault::NoTolerance));
    }
    Ok(())
}

// What is wrong with a CSV whose quotes, fields and lengths are not.
fn content_finding(csv: &[u8]) -> Result<(), Finding>
    requires { length csv.now ≤ 200000 }
    ensures { found_number result ≡ content_finding csv.now }
{
    let last = last_row(csv);
    if 15 < last {
        return Err(found_in(csv, 16, 0, Fault::Rows));
    }
    names_finding(csv)?;
    let factors = row_of(csv, Kind::Factors, last);
    rows_finding(csv, factors, columns(csv), last)?;
    missing_finding(csv, last)
}

// The first fault of a sheet's CSV, its columns aside.
pub fn rows_fault(csv: &[u8]) -> Result<(), Finding>
    requires { length csv.now ≤ 200000 }
    ensures { found_number result ≡ rows_fault csv.now }
{
    let place = csv_cells::last_place(csv);
    if let Some(fault) = place.fault {
        return Err(Finding {
            fault,
            line: place.line,
            row: place.row,
            field: place.field,
        });
    }
    content_finding(csv)
}
