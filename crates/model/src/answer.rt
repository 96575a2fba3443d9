//! What calls answer.
use crate::fault::{LoadFault, StoreFault};

// What a mark did.
#[derive(Clone, Copy, Debug, PartialEq)]
pub enum MarkAnswer {
    // the content of this hold is shaded
    Hold(u32),
    // this cell is black now, and its contents are shaded
    Cell(u32),
    // nothing: no cell is grey
    Ended,
}

// The answer of any call.
// Stays: take answers a pair of numbers, sweep a cell and a flag, save the count and the length, as the rules of the
// calls have it.
#[derive(Clone, Copy, Debug, PartialEq)]
pub enum Answer {
    // yarn, drop, copy, follow, tie and turn
    Done(Result<(), StoreFault>),
    // take: the new cell and the units run
    Took(Result<(u32, u32), StoreFault>),
    // mark
    Marked(MarkAnswer),
    // sweep: the cell and whether it was put back, or none at the end
    Swept(Option<(u32, bool)>),
    // load: how many cells
    Loaded(Result<u32, LoadFault>),
    // save: how many cells, and the length of the text
    Saved(Result<(u32, usize), StoreFault>),
}
