//! The two passes of a load, over any heap. The first reads which free cells will be taken and changes none of them; the
//! second makes the pattern in those cells. A line may name cells of later lines, so the whole table stands before the second.
#![tactic(auto)]

ghost use Rattle.loading.specs.Fit.{PassesFit};

mod gathering;
mod settling;

pub use gathering::gather;
pub use settling::settle;

// The table that the first pass leaves suits the second. There is no code here: the function stands for the theorem.
pub fn passes_fit()
    ensures { PassesFit }
{}
