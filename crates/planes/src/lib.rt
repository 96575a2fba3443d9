//! The planes heap: lent records for joint, contents and tag, and the colours in three lent planes of bits.
#![tactic(auto)]

mod bits;
mod heap;
mod memory;

pub use cells::LinkRecord;
pub use heap::PlanesHeap;
pub use memory::PlanesMemory;
