//! Every heap at the sizes where something changes.
use crate::calls::{exchanges_last, greys_last, is_new, refuses_writes, shades};
use cells::{
    CellRecord, Colour, Content, Heap, HeapFault, Joint, LinkRecord, MarkColour, SweepColour, Tag,
};
use planes::{PlanesHeap, PlanesMemory};
use records::RecordsHeap;
use std::alloc::{AllocError, Global};
use std::process::Abort;
use std::test::Fail;
use tally::GreyTally;

// Links that no heap may find or leave in a cell.
const OLD_LINKS: LinkRecord = LinkRecord {
    joint: Joint::Above,
    left: Content::Cell(u32::MAX),
    right: Content::Yarn(u32::MAX),
    tag: Tag::Used,
};

// A record that no heap may find or leave in a cell.
const OLD: CellRecord = CellRecord {
    links: OLD_LINKS,
    mark: MarkColour::Grey,
    sweep: SweepColour::Black,
};

// Memory for a planes heap, with records and bits that no heap may find or leave in a cell.
#[derive(Drop)]
struct Pieces {
    links: Vec<LinkRecord>,
    grey: Vec<u8>,
    mark: Vec<u8>,
    sweep: Vec<u8>,
}

impl Pieces {
    // So many records, and so many bytes of each plane.
    fn new(
        alloc: Global,
        links: usize,
        grey: usize,
        mark: usize,
        sweep: usize,
    ) -> Result<Pieces, AllocError> {
        Ok(Pieces {
            links: vec![in alloc; OLD_LINKS; links]?,
            grey: vec![in alloc; 0xff; grey]?,
            mark: vec![in alloc; 0xff; mark]?,
            sweep: vec![in alloc; 0xff; sweep]?,
        })
    }

    fn heap(&mut self) -> PlanesHeap<'_> {
        PlanesHeap::new(PlanesMemory {
            links: self.links.as_mut_slice(),
            grey: self.grey.as_mut_slice(),
            mark: self.mark.as_mut_slice(),
            sweep: self.sweep.as_mut_slice(),
        })
    }
}

// All that is asked of a new heap of this size.
fn all_calls<H: Heap>(rt: &impl Abort, heap: &mut H, size: u32) {
    is_new(rt, heap, size);
    let Some(last) = size.checked_sub(1) else {
        assert_eq!(rt; heap.exchange(), Ok(()));
        return;
    };
    refuses_writes(rt, heap, size);
    greys_last(rt, heap, last, size);
    exchanges_last(rt, heap, last);
    greys_last(rt, heap, last, size);
}

// The records beyond the size are as they were.
#[test]
fn records_of_all_sizes(rt: HostRuntime) -> Result<(), Fail> {
    for (length, size) in [
        (0, 0),
        (1, 1),
        (7, 7),
        (8, 8),
        (9, 9),
        (16384, 16384),
        (16390, 16384),
    ] {
        let mut memory = vec![in rt.alloc(); OLD; length]?;
        all_calls(&rt, &mut RecordsHeap::new(memory.as_mut_slice()), size);
        assert!(rt; memory.iter().skip(16384).all(|cell| *cell == OLD));
    }
    Ok(())
}

#[test]
fn planes_of_all_sizes(rt: HostRuntime) -> Result<(), Fail> {
    let rows = [
        (0, 1, 1, 1, 0),
        (5, 1, 0, 1, 0),
        (1, 1, 1, 1, 1),
        (7, 1, 1, 1, 7),
        (8, 1, 1, 1, 8),
        (9, 2, 2, 2, 9),
        (99, 1, 2, 3, 8),
        (99, 3, 1, 2, 8),
        (99, 2, 3, 1, 8),
        (16384, 2048, 2048, 2048, 16384),
        (16390, 2050, 2049, 2051, 16384),
    ];
    for (links, grey, mark, sweep, size) in rows {
        let mut pieces = Pieces::new(rt.alloc(), links, grey, mark, sweep)?;
        all_calls(&rt, &mut pieces.heap(), size);
    }
    Ok(())
}

// Bits at the size and above, also in the byte of the last cell, are as they were, and no call reports them.
#[test]
fn planes_keep_the_rest(rt: HostRuntime) {
    let mut links = [OLD_LINKS; 9];
    let mut grey = [0xff; 3];
    let mut mark = [0xf5; 2];
    let mut sweep = [0xfb; 2];
    {
        let mut heap = PlanesHeap::new(PlanesMemory {
            links: &mut links,
            grey: &mut grey,
            mark: &mut mark,
            sweep: &mut sweep,
        });
        assert_eq!(rt; heap.first_grey(0), None);
        all_calls(&rt, &mut heap, 9);
    }
    // cell 8 is grey; its mark is white in the plane that was lent for sweeping, its sweep colour white in the other
    assert_eq!(rt; grey, [0, 0xff, 0xff]);
    assert_eq!(rt; mark, [0, 0xf4]);
    assert_eq!(rt; sweep, [0, 0xfa]);
}

#[test]
fn tally_over_records(rt: HostRuntime) {
    let mut memory = [OLD; 9];
    let mut tally = GreyTally::lay(RecordsHeap::new(&mut memory));
    all_calls(&rt, &mut tally, 9);
}

#[test]
fn tally_over_tally_over_planes(rt: HostRuntime) -> Result<(), Fail> {
    let mut pieces = Pieces::new(rt.alloc(), 9, 2, 2, 2)?;
    let mut tally = GreyTally::lay(GreyTally::lay(pieces.heap()));
    all_calls(&rt, &mut tally, 9);
    Ok(())
}

// A tally that is laid over a grey cell counts it.
#[test]
fn tally_counts_when_laid(rt: HostRuntime) {
    let mut memory = [OLD; 3];
    let mut heap = RecordsHeap::new(&mut memory);
    assert_eq!(rt; heap.paint(2, Colour::Mark(MarkColour::Grey)), Ok(()));
    let mut tally = GreyTally::lay(heap);
    assert_eq!(rt; tally.first_grey(0), Some(2));
    assert_eq!(rt; tally.paint(2, Colour::Mark(MarkColour::White)), Ok(()));
    assert_eq!(rt; tally.first_grey(0), None);
}

#[test]
fn shading_over_all(rt: HostRuntime) -> Result<(), Fail> {
    let mut memory = [OLD; 3];
    let mut again = [OLD; 4];
    let mut pieces = Pieces::new(rt.alloc(), 5, 1, 1, 1)?;
    shades(&rt, &mut RecordsHeap::new(&mut memory));
    shades(&rt, &mut GreyTally::lay(RecordsHeap::new(&mut again)));
    shades(&rt, &mut pieces.heap());
    Ok(())
}

#[test]
fn refusals_have_their_numbers(rt: HostRuntime) {
    for (fault, number) in [
        (HeapFault::YarnRange, 5),
        (HeapFault::CellRange, 18),
        (HeapFault::GreyLeft, 19),
    ] {
        assert_eq!(rt; fault.number(), number);
    }
}
