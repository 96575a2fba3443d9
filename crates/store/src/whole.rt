//! The store itself.
use crate::free_list::FreeList;
use crate::table::HoldTable;
use model::Stage;

// A store of two-field cells over any heap, with a collector that marks during sweep.
// Stays: that a store is well formed stands in the contracts, and in no ghost field. As a ghost field it would have to
// begin with `H.sound heap`, and no call keeps that: of a heap that is not sound a call promises nothing, so it may leave
// a sound one, and of the state over that nothing is known.
#[derive(Drop)]
pub struct Store<H> {
    pub(crate) heap: H,
    pub(crate) holds: HoldTable,
    // where the marker is
    pub(crate) stage: Stage,
    // the cell that is swept next
    pub(crate) place: u32,
    pub(crate) free: FreeList,
}
