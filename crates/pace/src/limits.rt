//! The limits of a pace.
ghost use Rattle.std.specs.Prelude.{◌≤◌};

mod calls;

// A pace: the limits of allocation-driven pacing. A take that finds a free cell runs at least `least` and at most
// `most` units, where a unit is one increment of collector work.
// Stays: no `impl Model`, since a struct of two numbers with the fact that binds them is the project's form for a pace.
#[derive(Clone, Copy, Debug, PartialEq)]
pub struct Pace {
    least: u32,
    most: u32,
    // so no take has to test its pace
    ghost fits: { (least ≤ most) × (most ≤ 65535) },
}
