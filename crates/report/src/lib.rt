//! What is in a pattern, counted and told as lines of text.
#![tactic(auto)]

mod counting;
mod tally;
mod tell;

pub use counting::survey;
pub use tally::Summary;
pub use tell::report;
