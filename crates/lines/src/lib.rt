//! The lines of an archive text: read as fields and values, and written into a lent buffer.
#![tactic(auto)]

mod cell;
mod fault;
mod line;
mod write;

pub use cell::PatternCell;
pub use fault::{Layer, LineFault};
pub use line::Line;
pub use write::{cell_length, end_length, header_length, write_cell, write_end, write_header};
