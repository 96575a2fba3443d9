//! The grey tally: a layer over any heap that counts its grey cells.
#![tactic(auto)]

mod count;
mod layer;

pub use layer::GreyTally;
