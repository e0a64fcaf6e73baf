// Scale cells from flat lists, one entry a cell in each, as programs in other languages hand them over.
//
// Helper for other crates, which asks nothing of its caller: cells_of.
#![tactic(auto)]

ghost use Rattle.std.specs.Prelude.{◌≡◌};
ghost use Rattle.scale_cell_lists.specs.Lists.{cell_of, flat_cell, flat_cells};

use scale_cells::{Cell, ScaleCell, Weighing};

// A cell by its kind: 1 for a net, 2 for a weighing, any other number for an unweighed cell.
fn cell_of(kind: u8, first: f64, second: f64) -> Cell
    ensures { result ≡ cell_of kind first second }
{
    if kind == 1 {
        return Cell::Net(first);
    }
    if kind == 2 {
        return Cell::Weighed(Weighing {
            gross: first,
            tare: second,
        });
    }
    Cell::Unweighed
}

// Cell `i` of the lists, unweighed where one of them is too short.
fn cell_at(kinds: &[u8], first: &[f64], second: &[f64], units: &[u32], i: usize) -> ScaleCell
    ensures { result ≡ flat_cell kinds.now first.now second.now units.now i }
{
    if i < kinds.len() {
        if i < first.len() {
            if i < second.len() {
                if i < units.len() {
                    let cell = cell_of(kinds[i], first[i], second[i]);
                    let unit = units[i];
                    return ScaleCell { cell, unit };
                }
            }
        }
    }
    ScaleCell {
        cell: Cell::Unweighed,
        unit: 0,
    }
}

// The 64 cells of the lists.
pub fn cells_of(kinds: &[u8], first: &[f64], second: &[f64], units: &[u32]) -> [ScaleCell; 64]
    ensures { result ≡ flat_cells kinds.now first.now second.now units.now }
{
    let mut cells = [ScaleCell {
        cell: Cell::Unweighed,
        unit: 0,
    }; 64];
    for i in 0..64 {
        let s = cell_at(kinds, first, second, units, i);
        cells[i] = s;
    }
    cells
}
