//! The table of holds (the roots).
ghost use Rattle.std.specs.Prelude.{◌≡◌, ◌≤◌, length};

use cells::Content;

// No store has more holds.
pub const MOST_HOLDS: usize = 96;

// Room for all holds that a store can have; those from `count` on are no holds, and nothing writes them.
// Stays: an array with a count, since the memory of a store is fixed and no allocator is asked.
#[derive(Drop)]
pub struct HoldTable {
    pub(crate) contents: [Content; MOST_HOLDS],
    pub(crate) count: u32,
    // so every hold has its entry
    ghost few: { count ≤ 96 },
    ghost wide: { length contents ≡ 96 },
}
