//! What a heap is: a memory of numbered cells, known only by what it means.
ghost use Rattle.std.specs.Prelude.{◌≡◌};
ghost use Rattle.cells.specs.Cells.{Cells, cell_at};
ghost use Rattle.cells.specs.Calls.{Lawful, exchange_answer, exchange_cells, first_grey, paint_answer, paint_cells, read_answer, write_answer, write_cells};

use crate::cell::{CellRecord, Colour, LinkRecord};
use crate::fault::HeapFault;

// Every call may be made on any heap; what it promises, it promises of a sound one, and it leaves that sound.
// Stays: `sound self.old →` in each clause is no invariant of a type, since a heap that is not sound is still a heap:
// a rule of the project asks every implementation for its sound states alone, and a layer is sound only over a sound heap.
pub trait Heap {
    // The size, and what each cell holds. Two heaps of one meaning cannot be told apart by these calls.
    ghost meaning: { Self → Cells };

    // Is the memory behind the heap in order? What that asks for is the heap's own affair.
    ghost sound: { Self → Type 0 };

    // What is known of the cells of every sound heap: a proof that each heap owes.
    ghost lawful: { (h : Self) → sound h → Lawful (meaning h) };

    // How many cells there are.
    fn size(&self) -> u32
        ensures { sound self.now → result ≡ (meaning self.now).size };

    // All of a cell.
    fn read(&self, index: u32) -> Result<CellRecord, HeapFault>
        ensures { sound self.now → result ≡ read_answer (meaning self.now) index };

    // Sets joint, contents and tag of a cell, and no colour.
    fn write(&mut self, index: u32, links: LinkRecord) -> Result<(), HeapFault>
        ensures result { sound self.old → result ≡ write_answer (meaning self.old) index links }
        ensures after { sound self.old → meaning self.new ≡ write_cells (meaning self.old) index links }
        ensures kept { sound self.old → sound self.new };

    // Sets one colour of a cell, and nothing else.
    fn paint(&mut self, index: u32, colour: Colour) -> Result<(), HeapFault>
        ensures result { sound self.old → result ≡ paint_answer (meaning self.old) index }
        ensures after { sound self.old → meaning self.new ≡ paint_cells (meaning self.old) index colour }
        ensures kept { sound self.old → sound self.new };

    // The lowest grey cell numbered `from` or more, if there is one.
    fn first_grey(&self, from: u32) -> Option<u32>
        ensures found { sound self.now → result ≡ first_grey (meaning self.now) from };

    // In every cell the two colours change places, so that what was marked is swept next; refused while a cell is grey.
    fn exchange(&mut self) -> Result<(), HeapFault>
        ensures result { sound self.old → result ≡ exchange_answer (meaning self.old) }
        ensures after { sound self.old → meaning self.new ≡ exchange_cells (meaning self.old) }
        ensures kept { sound self.old → sound self.new };
}

// All of a cell of any heap; one that does not exist is as a new one.
pub fn look<H: Heap>(heap: &H, index: u32) -> CellRecord
    ensures { H.sound heap.now → result ≡ cell_at (H.meaning heap.now) index }
{
    heap.read(index).unwrap_or(CellRecord::new())
}
