//! The records heap: cells in a lent memory of cell records, colours included.
#![tactic(auto)]

mod heap;

pub use heap::RecordsHeap;
