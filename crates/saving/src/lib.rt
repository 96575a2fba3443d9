//! Saving a pattern, over any heap: its cells are numbered into two lent tables, and its text is written into a lent buffer.
#![tactic(auto)]

mod save;
mod tables;
mod walk;
mod writing;

pub use save::save_pattern;
