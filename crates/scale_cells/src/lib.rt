// The cells that a weigh hall hands over in place of typed values, and the sheet values that they give. Types only: specs/ says
// what the value of a cell is and what refuses it, docs/cells.md in words.

#![tactic(auto)]
// A reading with the load and one without it, in kilograms.
#[derive(Clone, Copy)]
pub struct Weighing {
    pub gross: f64,
    pub tare: f64,
}

// What the scale gives for one column.
#[derive(Clone, Copy)]
pub enum Cell {
    Unweighed,
    // the net in kilograms
    Net(f64),
    Weighed(Weighing),
}

// A cell with the kilograms of one unit of its column.
#[derive(Clone, Copy)]
pub struct ScaleCell {
    pub cell: Cell,
    pub unit: u32,
}

// The sheet values of 64 cells, 0 past the book's last column. A refused call has its number in `refusal` and 0 in every value;
// an accepted one has 0 in `refusal`.
#[repr(C)]
#[derive(Clone, Copy)]
pub struct SheetValues {
    pub refusal: u32,
    pub values: [i16; 64],
}
