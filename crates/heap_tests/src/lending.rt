//! Callers that lend memory to a heap, and know it again once the heap is gone.
ghost use Rattle.std.specs.Prelude.{◌≡◌, length, drop};
ghost use Rattle.cells.specs.Front.{size_for};
ghost use Rattle.planes.specs.Bits.{SameBits};
ghost use Rattle.planes.specs.Planes.{planes_size};

use cells::{CellRecord, Colour, Content, Heap, Joint, LinkRecord, MarkColour, Tag};
use planes::{PlanesHeap, PlanesMemory};
use records::RecordsHeap;

// The records beyond the size outlive a records heap unchanged.
pub(crate) fn lend_records(memory: &mut [CellRecord])
    ensures { drop (size_for (length memory.old)) memory.new ≡ drop (size_for (length memory.old)) memory.old }
{
    let mut heap = RecordsHeap::new(memory);
    let links = LinkRecord {
        joint: Joint::Above,
        left: Content::Nothing,
        right: Content::Yarn(5),
        tag: Tag::Used,
    };
    let _ = heap.write(0, links);
    let _ = heap.paint(0, Colour::Mark(MarkColour::Black));
    let _ = heap.exchange();
}

// The bits beyond the size come back unchanged from a planes heap. After the exchange, which a new heap never
// refuses, the plane that was lent for marking comes back in the part of the sweep plane, and the other way round.
pub(crate) fn lend_planes<'a>(memory: PlanesMemory<'a>) -> PlanesMemory<'a>
    ensures grey { SameBits (planes_size memory.entry) memory.entry.grey.now result.grey.now }
    ensures sweep { SameBits (planes_size memory.entry) memory.entry.sweep.now result.mark.now }
    ensures mark { SameBits (planes_size memory.entry) memory.entry.mark.now result.sweep.now }
{
    let mut heap = PlanesHeap::new(memory);
    let _ = heap.exchange();
    let _ = heap.paint(0, Colour::Mark(MarkColour::Grey));
    heap.release()
}
