//! A heap in the front of four lent pieces of memory.
ghost use Rattle.std.specs.Prelude.{◌≡◌};
ghost use Rattle.cells.specs.Calls.{exchange_answer, exchange_cells, exchange_fault, first_grey, paint_answer, paint_cells, write_answer, write_cells};
ghost use Rattle.cells.specs.Cells.{new_cells};
ghost use Rattle.cells.specs.Fault.{unless_fault};
ghost use Rattle.planes.specs.Planes.{planes_size};
ghost use Rattle.planes.specs.Whole.{MadeIn, SameBeyond, SoundPlanes, cells_of_planes, size_of_planes, swapped_planes};

use crate::bits::{first_set, get_bit, mark_of, sweep_of};
use crate::memory::PlanesMemory;
use cells::{
    CellRecord, Colour, Heap, HeapFault, LinkRecord, check_exchange, check_index, check_write,
};

// A heap is its lent memory.
#[derive(Drop)]
pub struct PlanesHeap<'a> {
    memory: PlanesMemory<'a>,
}

impl<'a> PlanesHeap<'a> {
    // Makes a heap of new cells. What lies beyond the size stays as it was, and the memory that the heap writes
    // is the caller's own, which comes back as the heap left it.
    #[tactic(auto, using(crate::proofs::Entire::made_cells, crate::proofs::Entire::made_sound))]
    pub fn new(mut memory: PlanesMemory<'a>) -> PlanesHeap<'a>
        ensures made { MadeIn memory.entry result }
        ensures meaning { cells_of_planes result ≡ new_cells (planes_size memory.entry) }
        ensures sound { SoundPlanes result }
    {
        memory.renew();
        PlanesHeap { memory }
    }

    // Gives the memory back as the heap left it: the two black planes in their present parts.
    pub fn release(self) -> PlanesMemory<'a>
        ensures { result ≡ self.entry.memory }
    {
        let PlanesHeap { memory } = self;
        memory
    }
}

// Sound if all contents of the cells are in range, and no cell has both its grey bit and its mark bit set.
// Stays: `write`, `paint` and `exchange` repeat the trait's clauses, since a method with a clause of its own has its
// clauses in place of the trait's.
impl<'a> Heap for PlanesHeap<'a> {
    ghost meaning = { λ h. cells_of_planes h };

    ghost sound = { λ h. SoundPlanes h };

    ghost lawful = { λ h s. s.cells };

    fn size(&self) -> u32
        ensures { result ≡ size_of_planes self.now }
    {
        self.memory.room() as u32
    }

    fn read(&self, index: u32) -> Result<CellRecord, HeapFault> {
        check_index(self.size(), index)?;
        let i = index as usize;
        Ok(CellRecord {
            links: self.memory.links[i],
            mark: mark_of(get_bit(self.memory.grey, i), get_bit(self.memory.mark, i)),
            sweep: sweep_of(get_bit(self.memory.sweep, i)),
        })
    }

    #[tactic(auto, using(crate::proofs::Entire::written_cells, crate::proofs::Entire::written_sound))]
    fn write(&mut self, index: u32, links: LinkRecord) -> Result<(), HeapFault>
        ensures result { SoundPlanes self.old → result ≡ write_answer (cells_of_planes self.old) index links }
        ensures after { SoundPlanes self.old → cells_of_planes self.new ≡ write_cells (cells_of_planes self.old) index links }
        ensures kept { SoundPlanes self.old → SoundPlanes self.new }
        ensures beyond { SameBeyond self.old self.new }
    {
        check_write(self.size(), index, links)?;
        self.memory.links[index as usize] = links;
        Ok(())
    }

    fn paint(&mut self, index: u32, colour: Colour) -> Result<(), HeapFault>
        ensures result { SoundPlanes self.old → result ≡ paint_answer (cells_of_planes self.old) index }
        ensures after { SoundPlanes self.old → cells_of_planes self.new ≡ paint_cells (cells_of_planes self.old) index colour }
        ensures kept { SoundPlanes self.old → SoundPlanes self.new }
        ensures beyond { SameBeyond self.old self.new }
    {
        check_index(self.size(), index)?;
        match colour {
            Colour::Mark(mark) => self.memory.paint_mark(index as usize, mark),
            Colour::Sweep(sweep) => self.memory.paint_sweep(index as usize, sweep),
        }
        Ok(())
    }

    #[tactic(auto, using(crate::proofs::Entire::found_in))]
    fn first_grey(&self, from: u32) -> Option<u32>
        ensures { result ≡ first_grey (cells_of_planes self.now) from }
    {
        first_set(self.memory.grey, from, self.size())
    }

    #[tactic(auto, using(crate::proofs::Entire::swap_cells, crate::proofs::Entire::swap_sound))]
    fn exchange(&mut self) -> Result<(), HeapFault>
        ensures result { SoundPlanes self.old → result ≡ exchange_answer (cells_of_planes self.old) }
        ensures after { SoundPlanes self.old → cells_of_planes self.new ≡ exchange_cells (cells_of_planes self.old) }
        ensures kept { SoundPlanes self.old → SoundPlanes self.new }
        ensures parts { self.new ≡ unless_fault (exchange_fault (cells_of_planes self.old)) (swapped_planes self.old) self.old }
    {
        check_exchange(self.first_grey(0))?;
        self.memory.swap_parts();
        Ok(())
    }
}
