//! The steps of a store as they change a heap, any heap: known only by its meaning. Each speaks of a sound heap and of
//! cells and contents that it has; on any other heap it is safe and ends. What a sound heap holds is in range, so only
//! what a caller brings is spoken of.
// Stays: `index < (H.meaning heap.old).size` and `InRange (H.meaning heap.old).size content` speak of two arguments, one of
// them a heap that changes, so no type of one of them can say them.
#![tactic(auto)]

ghost use Rattle.std.specs.Prelude.{◌≡◌, ◌<◌, IfSome, None};
ghost use Rattle.cells.specs.Calls.{InRange, write_unless};
ghost use Rattle.model.specs.Collector.{next_grey, whitened_cells};
ghost use Rattle.model.specs.Hand.{tied_cells};
ghost use Rattle.model.specs.State.{opened_cells};
ghost use Rattle.model.specs.Take.{new_sweep};
ghost use Rattle.steps.specs.Steps.{LineFits, cells_blackened, cells_freed, cells_given, cells_renewed, cells_shaded, cells_used, link_of};

use cells::{Colour, Content, Heap, LinkRecord, MarkColour, Side, SweepColour, look};
use lines::PatternCell;

// Shades a content.
// Stays: `shading::shade` speaks of any content, and `shading::blacken` of any index; said of one in range, here and in
// `blacken` below, no caller has to show that nothing is refused.
pub fn shade<H: Heap>(heap: &mut H, content: Content)
    ensures after { H.sound heap.old → InRange (H.meaning heap.old).size content → H.meaning heap.new ≡ cells_shaded (H.meaning heap.old) content }
    ensures kept { H.sound heap.old → H.sound heap.new }
{
    shading::shade(heap, content);
}

// The grey cell that a mark at cell `from` finds: the first from there on, or else the first of all.
pub fn next_grey<H: Heap>(heap: &H, from: u32) -> Option<u32>
    ensures { H.sound heap.now → result ≡ next_grey (H.meaning heap.now) from }
{
    heap.first_grey(from).or_else(|| heap.first_grey(0))
}

// Shades the contents of a cell and paints it black.
pub fn blacken<H: Heap>(heap: &mut H, index: u32)
    ensures after { H.sound heap.old → index < (H.meaning heap.old).size → H.meaning heap.new ≡ cells_blackened (H.meaning heap.old) index }
    ensures kept { H.sound heap.old → H.sound heap.new }
{
    let _ = shading::blacken(heap, index);
}

// The sweep colour of a cell becomes white.
pub fn whiten<H: Heap>(heap: &mut H, index: u32)
    ensures after { H.sound heap.old → index < (H.meaning heap.old).size → H.meaning heap.new ≡ whitened_cells (H.meaning heap.old) index }
    ensures kept { H.sound heap.old → H.sound heap.new }
{
    let _ = heap.paint(index, Colour::Sweep(SweepColour::White));
}

// Writes a cell that the heap has, with contents that it can have: nothing is refused.
fn lay<H: Heap>(heap: &mut H, index: u32, links: LinkRecord)
    ensures after { H.sound heap.old → index < (H.meaning heap.old).size → InRange (H.meaning heap.old).size links.left → InRange (H.meaning heap.old).size links.right → H.meaning heap.new ≡ write_unless None (H.meaning heap.old) index links }
    ensures kept { H.sound heap.old → H.sound heap.new }
{
    let _ = heap.write(index, links);
}

// Ties a content to a side of a cell.
fn tie<H: Heap>(heap: &mut H, index: u32, side: Side, content: Content)
    ensures after { H.sound heap.old → index < (H.meaning heap.old).size → InRange (H.meaning heap.old).size content → H.meaning heap.new ≡ tied_cells (H.meaning heap.old) side index content }
    ensures kept { H.sound heap.old → H.sound heap.new }
{
    let mut links = look(heap, index).links;
    match side {
        Side::Left => links.left = content,
        Side::Right => links.right = content,
    }
    lay(heap, index, links);
}

// Ties a content to a side of a cell, and shades it.
pub fn tie_shaded<H: Heap>(heap: &mut H, index: u32, side: Side, content: Content)
    ensures after { H.sound heap.old → index < (H.meaning heap.old).size → InRange (H.meaning heap.old).size content → H.meaning heap.new ≡ tied_cells (cells_shaded (H.meaning heap.old) content) side index content }
    ensures kept { H.sound heap.old → H.sound heap.new }
{
    shade(heap, content);
    tie(heap, index, side, content);
}

// Puts a cell back behind the last free cell, if there is one.
pub fn put_back<H: Heap>(heap: &mut H, last: Option<u32>, index: u32)
    ensures after { H.sound heap.old → index < (H.meaning heap.old).size → IfSome last (λ l. l < (H.meaning heap.old).size) → H.meaning heap.new ≡ cells_freed (H.meaning heap.old) last index }
    ensures kept { H.sound heap.old → H.sound heap.new }
{
    if let Some(last) = last {
        tie(heap, last, Side::Left, Content::Cell(index));
    }
    lay(heap, index, LinkRecord::new());
}

fn new_sweep(place: u32, index: u32) -> SweepColour
    ensures { result ≡ new_sweep place index }
{
    if place <= index {
        SweepColour::Black
    } else {
        SweepColour::White
    }
}

// Makes a cell a used one, black for the marker, with the joint and the contents of a line. The sweeper, which is at
// `place`, keeps it where it has still to pass it.
pub fn make_used<H: Heap>(heap: &mut H, index: u32, line: PatternCell, place: u32)
    ensures after { H.sound heap.old → index < (H.meaning heap.old).size → LineFits (H.meaning heap.old).size line → H.meaning heap.new ≡ cells_used (H.meaning heap.old) index line place }
    ensures kept { H.sound heap.old → H.sound heap.new }
{
    lay(heap, index, line.used());
    let _ = heap.paint(index, Colour::Mark(MarkColour::Black));
    let _ = heap.paint(index, Colour::Sweep(new_sweep(place, index)));
}

// Gives a cell away: its contents are shaded, and it is a new cell.
pub fn give<H: Heap>(heap: &mut H, index: u32, line: PatternCell, place: u32)
    ensures after { H.sound heap.old → index < (H.meaning heap.old).size → LineFits (H.meaning heap.old).size line → H.meaning heap.new ≡ cells_given (H.meaning heap.old) index line place }
    ensures kept { H.sound heap.old → H.sound heap.new }
{
    shade(heap, line.left);
    shade(heap, line.right);
    make_used(heap, index, line, place);
}

// The link of a cell among `size` free cells in rising order: the next one, or nothing behind the last.
fn link_of(size: u32, index: u32) -> Content
    ensures { result ≡ link_of size index }
{
    match index.checked_add(1) {
        Some(next) if next < size => Content::Cell(next),
        _ => Content::Nothing,
    }
}

// Makes a cell free and white, with this left.
fn renew<H: Heap>(heap: &mut H, index: u32, left: Content)
    ensures after { H.sound heap.old → index < (H.meaning heap.old).size → InRange (H.meaning heap.old).size left → H.meaning heap.new ≡ cells_renewed (H.meaning heap.old) index left }
    ensures kept { H.sound heap.old → H.sound heap.new }
{
    lay(
        heap,
        index,
        LinkRecord {
            left,
            ..LinkRecord::new()
        },
    );
    let _ = heap.paint(index, Colour::Mark(MarkColour::White));
    whiten(heap, index);
}

// Makes all cells free, in rising order, whatever they held.
pub fn reset<H: Heap>(heap: &mut H)
    ensures after { H.sound heap.old → H.meaning heap.new ≡ opened_cells (H.meaning heap.old).size }
    ensures kept { H.sound heap.old → H.sound heap.new }
{
    let size = heap.size();
    // Stays: a heap is no slice, so there is nothing to go through but the numbers of its cells.
    for index in 0..size {
        renew(heap, index, link_of(size, index));
    }
}
