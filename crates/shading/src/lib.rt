//! Shading and blackening, over any heap: known only by its meaning, and proved once for all heaps.
#![tactic(auto)]

ghost use Rattle.std.specs.Prelude.{◌≡◌};
ghost use Rattle.cells.specs.Calls.{paint_answer};
ghost use Rattle.shading.specs.Shading.{blackened_cells, shaded_cells};

use cells::{Colour, Content, Heap, HeapFault, MarkColour};

// Shades a content, that is, greys a white object: a white cell becomes grey, so that the marker will still
// look at its contents. Anything else is left: nothing, a yarn, a grey or a black cell, a cell that does not exist.
pub fn shade<H: Heap>(heap: &mut H, content: Content)
    ensures after { H.sound heap.old → H.meaning heap.new ≡ shaded_cells (H.meaning heap.old) content }
    ensures kept { H.sound heap.old → H.sound heap.new }
{
    if let Content::Cell(index) = content
        && let Ok(cell) = heap.read(index)
        && cell.mark == MarkColour::White
    {
        let _ = heap.paint(index, Colour::Mark(MarkColour::Grey));
    }
}

// Blackens a cell, that is, scans an object: its left content is shaded, then its right one, and then the cell is black.
pub fn blacken<H: Heap>(heap: &mut H, index: u32) -> Result<(), HeapFault>
    ensures result { H.sound heap.old → result ≡ paint_answer (H.meaning heap.old) index }
    ensures after { H.sound heap.old → H.meaning heap.new ≡ blackened_cells (H.meaning heap.old) index }
    ensures kept { H.sound heap.old → H.sound heap.new }
{
    let links = heap.read(index)?.links;
    shade(heap, links.left);
    shade(heap, links.right);
    heap.paint(index, Colour::Mark(MarkColour::Black))
}
