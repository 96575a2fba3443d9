//! The archive text of a pattern: its faults, a reader, and the verdict on a whole text. The lines are those of `lines`.
#![tactic(auto)]

mod due;
mod fault;
mod reader;
mod verdict;

pub use cells::{Content, Joint};
pub use fault::FileFault;
pub use lines::{Layer, Line, LineFault, PatternCell, write_cell, write_end, write_header};
pub use reader::Reader;
pub use text::Writer;
pub use verdict::judge;
