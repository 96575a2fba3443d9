//! What any heap must do, asked through its six calls alone.
use cells::{
    CellRecord, Colour, Content, Heap, HeapFault, Joint, LinkRecord, MarkColour, SweepColour, Tag,
};
use shading::{blacken, shade};
use std::process::Abort;

// Of a used cell that holds these contents, one above the other.
fn used(left: Content, right: Content) -> LinkRecord {
    LinkRecord {
        joint: Joint::Above,
        left,
        right,
        tag: Tag::Used,
    }
}

// The answers of a new heap, at its size and beyond it.
// Stays: a `for` over the numbers of the cells, since a heap gives its cells by number alone.
pub(crate) fn is_new<H: Heap>(rt: &impl Abort, heap: &H, size: u32) {
    assert_eq!(rt; heap.size(), size);
    for index in 0..size {
        assert_eq!(rt; heap.read(index), Ok(CellRecord::new()));
    }
    for index in [size, u32::MAX] {
        assert_eq!(rt; heap.read(index), Err(HeapFault::CellRange));
        assert_eq!(rt; heap.first_grey(index), None);
    }
    assert_eq!(rt; heap.first_grey(0), None);
}

// A write is refused by its index, then by its left content, then by its right one.
pub(crate) fn refuses_writes<H: Heap>(rt: &impl Abort, heap: &mut H, size: u32) {
    let yarn = Content::Yarn(4096);
    let cell = Content::Cell(size);
    let rows = [
        (size, yarn, yarn, HeapFault::CellRange),
        (0, yarn, cell, HeapFault::YarnRange),
        (0, cell, yarn, HeapFault::CellRange),
        (0, Content::Yarn(4095), yarn, HeapFault::YarnRange),
        (0, Content::Nothing, cell, HeapFault::CellRange),
    ];
    for (index, left, right, fault) in rows {
        assert_eq!(rt; heap.write(index, used(left, right)), Err(fault));
        assert_eq!(rt; heap.read(0), Ok(CellRecord::new()));
    }
}

// The last cell is greyed and found, and an exchange is refused while it is grey.
pub(crate) fn greys_last<H: Heap>(rt: &impl Abort, heap: &mut H, last: u32, size: u32) {
    let grey = Colour::Mark(MarkColour::Grey);
    assert_eq!(rt; heap.paint(last, grey), Ok(()));
    assert_eq!(rt; heap.paint(size, grey), Err(HeapFault::CellRange));
    for (from, found) in [
        (0, Some(last)),
        (last, Some(last)),
        (size, None),
        (u32::MAX, None),
    ] {
        assert_eq!(rt; heap.first_grey(from), found);
    }
    assert_eq!(rt; heap.exchange(), Err(HeapFault::GreyLeft));
}

// The last cell is written and blackened, and its colours change places.
pub(crate) fn exchanges_last<H: Heap>(rt: &impl Abort, heap: &mut H, last: u32) {
    let links = used(Content::Cell(last), Content::Yarn(4095));
    assert_eq!(rt; heap.write(last, links), Ok(()));
    assert_eq!(rt; heap.paint(last, Colour::Mark(MarkColour::Black)), Ok(()));
    assert_eq!(rt; heap.first_grey(0), None);
    assert_eq!(rt; heap.exchange(), Ok(()));
    let cell = CellRecord {
        links,
        mark: MarkColour::White,
        sweep: SweepColour::Black,
    };
    assert_eq!(rt; heap.read(last), Ok(cell));
    assert_eq!(rt; heap.paint(last, Colour::Sweep(SweepColour::White)), Ok(()));
}

// Shading greys a white cell and nothing else; blackening shades both contents first.
pub(crate) fn shades<H: Heap>(rt: &impl Abort, heap: &mut H) {
    let links = used(Content::Cell(0), Content::Cell(2));
    assert_eq!(rt; heap.write(1, links), Ok(()));
    shade(heap, Content::Cell(1));
    assert_eq!(rt; heap.first_grey(0), Some(1));
    assert_eq!(rt; blacken(heap, 1), Ok(()));
    for (from, found) in [(0, Some(0)), (1, Some(2)), (3, None)] {
        assert_eq!(rt; heap.first_grey(from), found);
    }
    for content in [
        Content::Nothing,
        Content::Yarn(3),
        Content::Cell(1),
        Content::Cell(u32::MAX),
    ] {
        shade(heap, content);
        assert_eq!(rt; heap.first_grey(1), Some(2));
    }
    assert_eq!(rt; blacken(heap, u32::MAX), Err(HeapFault::CellRange));
}
