//! The vocabulary of patterns and stores, and what a heap is: the memory interface below a store.
#![tactic(auto)]

mod cell;
mod content;
mod fault;
mod heap;

pub use cell::{CellRecord, Colour, LinkRecord, MarkColour, Side, SweepColour, Tag, size_for};
pub use content::{Content, Joint, LAST_YARN, MOST_CELLS, UnknownJoint};
pub use fault::{HeapFault, check_exchange, check_index, check_write};
pub use heap::{Heap, look};
