// The columns of a sheet's CSV matched by name with those of a fleet's.
//
// Helpers for other crates, whose callers prove what they require: find_mismatch, put_positions. Each reads the names of both CSVs once, into
// slots; what the other functions say of slots holds of every CSV whose names are in them.
#![tactic(auto)]

ghost use Rattle.std.specs.Prelude.{List, ◌≡◌, ℕ, ◌≤◌, ◌<◌, length};
ghost use Rattle.buffers.specs.Placed.{placed};
ghost use Rattle.csv_cells.specs.Cells.{cell_text};
ghost use Rattle.csv_slots.specs.Slots.{Room, Held};
ghost use Rattle.csv_column_match.specs.Misfits.{misfit_number};
ghost use Rattle.csv_column_match.specs.Match.{column_of, column_mismatch, fleet_mismatch, unknown, mismatch, positions};

use csv_fleet_tokens::Fault;

// What is wrong, and the column of the fleet, or with Fault::Unknown of the sheet, that is meant.
#[derive(Clone, Copy, Debug, PartialEq, Eq)]
pub struct Mismatch {
    pub fault: Fault,
    pub column: usize,
}

// The last column from 1 to n of this name, 0 if there is none.
fn column_of(name: &[u8], n: usize, sizes: &[u8], cells: &[u8]) -> usize
    requires n_bound { n ≤ 64 }
    requires room { Room 1 sizes.now cells.now }
    ensures by_index { (csv : List ℕ) → Held 0 1 csv sizes.now cells.now → result ≡ column_of name.now n csv }
    ensures upper_bound { result ≤ n }
{
    for j in (1..=n).rev() {
        let other = csv_slots::cell(cells, sizes, j);
        if equal_bytes::is_same(other, name) {
            return j;
        }
    }
    0
}

// The last column from 1 to n of the CSV `to` that has the name of column j of the CSV `from`, 0 if there is none.
fn same_column(
    from_sizes: &[u8],
    from_cells: &[u8],
    j: usize,
    to_sizes: &[u8],
    to_cells: &[u8],
    n: usize,
) -> usize
    requires room { Room 1 from_sizes.now from_cells.now }
    requires room_2 { Room 1 to_sizes.now to_cells.now }
    requires j_bound { j ≤ 64 }
    requires n_bound { n ≤ 64 }
    ensures by_index { (from to : List ℕ) → Held 0 1 from from_sizes.now from_cells.now → Held 0 1 to to_sizes.now to_cells.now → result ≡ column_of (cell_text 0 j from) n to }
    ensures upper_bound { result ≤ n }
{
    let name = csv_slots::cell(from_cells, from_sizes, j);
    column_of(name, n, to_sizes, to_cells)
}

// What is wrong with column j of the fleet.
fn column_mismatch(
    fleet_sizes: &[u8],
    fleet_cells: &[u8],
    j: usize,
    sizes: &[u8],
    cells: &[u8],
    n: usize,
) -> Result<(), Mismatch>
    requires room { Room 1 fleet_sizes.now fleet_cells.now }
    requires room_2 { Room 1 sizes.now cells.now }
    requires j_nonzero { 0 < j }
    requires j_bound { j ≤ 64 }
    requires n_bound { n ≤ 64 }
    ensures { (fleet csv : List ℕ) → Held 0 1 fleet fleet_sizes.now fleet_cells.now → Held 0 1 csv sizes.now cells.now → misfit_number result ≡ column_mismatch n j fleet csv }
{
    let at = same_column(fleet_sizes, fleet_cells, j, sizes, cells, n);
    if at == 0 {
        return Err(Mismatch {
            fault: Fault::Missing,
            column: j,
        });
    }
    if same_column(fleet_sizes, fleet_cells, j, sizes, cells, at - 1) != 0 {
        return Err(Mismatch {
            fault: Fault::Twice,
            column: j,
        });
    }
    if same_column(fleet_sizes, fleet_cells, j, fleet_sizes, fleet_cells, j - 1) != 0 {
        return Err(Mismatch {
            fault: Fault::FleetTwice,
            column: j,
        });
    }
    Ok(())
}

// The first mismatch of columns 1 to m of the fleet.
fn fleet_mismatch(
    fleet_sizes: &[u8],
    fleet_cells: &[u8],
    m: usize,
    sizes: &[u8],
    cells: &[u8],
    n: usize,
) -> Result<(), Mismatch>
    requires room { Room 1 fleet_sizes.now fleet_cells.now }
    requires room_2 { Room 1 sizes.now cells.now }
    requires m_bound { m ≤ 64 }
    requires n_bound { n ≤ 64 }
    ensures { (fleet csv : List ℕ) → Held 0 1 fleet fleet_sizes.now fleet_cells.now → Held 0 1 csv sizes.now cells.now → misfit_number result ≡ fleet_mismatch n m fleet csv }
{
    for j in 0..m {
        column_mismatch(fleet_sizes, fleet_cells, j + 1, sizes, cells, n)?;
    }
    Ok(())
}

// The first of columns 1 to n of the sheet that is none of the m of the fleet, 0 if each is.
fn unknown(
    fleet_sizes: &[u8],
    fleet_cells: &[u8],
    m: usize,
    sizes: &[u8],
    cells: &[u8],
    n: usize,
) -> usize
    requires room { Room 1 fleet_sizes.now fleet_cells.now }
    requires room_2 { Room 1 sizes.now cells.now }
    requires m_bound { m ≤ 64 }
    requires n_bound { n ≤ 64 }
    ensures { (fleet csv : List ℕ) → Held 0 1 fleet fleet_sizes.now fleet_cells.now → Held 0 1 csv sizes.now cells.now → result ≡ unknown m n fleet csv }
{
    for j in 0..n {
        if same_column(sizes, cells, j + 1, fleet_sizes, fleet_cells, m) == 0 {
            return j + 1;
        }
    }
    0
}

// The first mismatch of m columns of the fleet and n of the sheet, by the slots of both.
fn mismatch_in(
    fleet_sizes: &[u8],
    fleet_cells: &[u8],
    m: usize,
    sizes: &[u8],
    cells: &[u8],
    n: usize,
) -> Result<(), Mismatch>
    requires room { Room 1 fleet_sizes.now fleet_cells.now }
    requires room_2 { Room 1 sizes.now cells.now }
    requires m_bound { m ≤ 64 }
    requires n_bound { n ≤ 64 }
    ensures { (fleet csv : List ℕ) → Held 0 1 fleet fleet_sizes.now fleet_cells.now → Held 0 1 csv sizes.now cells.now → misfit_number result ≡ mismatch m n fleet csv }
{
    fleet_mismatch(fleet_sizes, fleet_cells, m, sizes, cells, n)?;
    let column = unknown(fleet_sizes, fleet_cells, m, sizes, cells, n);
    if column != 0 {
        return Err(Mismatch {
            fault: Fault::Unknown,
            column,
        });
    }
    Ok(())
}

// The first mismatch of m columns of the fleet and n of the sheet.
pub fn find_mismatch(fleet: &[u8], m: usize, csv: &[u8], n: usize) -> Result<(), Mismatch>
    requires fleet_len_bound { length fleet.now ≤ 200000 }
    requires csv_len_bound { length csv.now ≤ 200000 }
    requires m_bound { m ≤ 64 }
    requires n_bound { n ≤ 64 }
    ensures { misfit_number result ≡ mismatch m n fleet.now csv.now }
{
    let mut fleet_sizes = [0u8; 65];
    let mut fleet_cells = [0u8; 13000];
    csv_slots::put_rows(fleet, 0, 1, &mut fleet_sizes, &mut fleet_cells);
    let mut sizes = [0u8; 65];
    let mut cells = [0u8; 13000];
    csv_slots::put_rows(csv, 0, 1, &mut sizes, &mut cells);
    mismatch_in(&fleet_sizes, &fleet_cells, m, &sizes, &cells, n)
}

// Puts the position of each of m columns of the fleet among n of the sheet, one byte each, from the first byte on.
pub fn put_positions(fleet: &[u8], m: usize, csv: &[u8], n: usize, output: &mut [u8])
    requires fleet_len_bound { length fleet.now ≤ 200000 }
    requires csv_len_bound { length csv.now ≤ 200000 }
    requires m_bound { m ≤ 64 }
    requires n_bound { n ≤ 64 }
    requires m_in_bounds { m ≤ length output.old }
    ensures { output.new ≡ placed output.old 0 (positions m n fleet.now csv.now) }
{
    let mut fleet_sizes = [0u8; 65];
    let mut fleet_cells = [0u8; 13000];
    csv_slots::put_rows(fleet, 0, 1, &mut fleet_sizes, &mut fleet_cells);
    let mut sizes = [0u8; 65];
    let mut cells = [0u8; 13000];
    csv_slots::put_rows(csv, 0, 1, &mut sizes, &mut cells);
    for j in 0..m {
        output[j] = same_column(&fleet_sizes, &fleet_cells, j + 1, &sizes, &cells, n) as u8;
    }
}
