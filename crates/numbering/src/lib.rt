//! Numbering the cells of a pattern, and what holds of it: the order in which a walk from the first cell meets them is
//! the order of the lines in the archive text. Four functions have no code: each stands for the theorem in its contract.
#![tactic(auto)]

mod renaming;

ghost use Rattle.numbering.specs.Laws.{LinesComeBack, WalkIsAccepted, WalkIsSamePattern, WalkNumbersEach};

pub use renaming::{entry, renamed, renamed_line};

// A walk gives one number to each cell of the pattern and to no other.
#[tactic(auto, using(crate::proofs::Reach::numbers_each))]
pub fn walk_numbers_each()
    ensures { WalkNumbersEach }
{}

// The text of a walk is accepted, with its count.
pub fn walk_is_accepted()
    ensures { WalkIsAccepted }
{}

// Lines that obey the rule come back from any cells they lie in.
#[tactic(auto, using(crate::proofs::Return::lines_come_back))]
pub fn lines_come_back()
    ensures { LinesComeBack }
{}

// The lines of a walk are the same pattern wherever they lie.
#[tactic(auto, using(crate::proofs::Alike::walk_same))]
pub fn walk_is_same_pattern()
    ensures { WalkIsSamePattern }
{}
