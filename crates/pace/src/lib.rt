//! How much the collector does for each allocation: the pace, and the guard under which a task has one of its own.
#![tactic(auto)]

mod guard;
mod limits;
#[cfg(test)]
mod tests;

pub use guard::{PaceGuard, PaceRecord};
pub use limits::Pace;
