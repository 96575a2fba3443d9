//! A heap in the front of a lent slice of cell records.
ghost use Rattle.std.specs.Prelude.{◌≡◌, length, position};
ghost use Rattle.cells.specs.Calls.{exchange_answer, exchange_cells, first_grey, paint_answer, paint_cells, write_answer, write_cells};
ghost use Rattle.cells.specs.Cells.{new_cells};
ghost use Rattle.cells.specs.Front.{size_for};
ghost use Rattle.cells.specs.Record.{is_grey};
ghost use Rattle.records.specs.Records.{MadeIn, SameBeyond, SoundRecords, cells_of_records};

use cells::{
    CellRecord, Colour, Heap, HeapFault, LinkRecord, check_exchange, check_index, check_write,
    size_for,
};

// The whole lent memory. The records in front, up to 16,384 of them, are the cells; those beyond are never written.
#[derive(Drop)]
pub struct RecordsHeap<'a> {
    cells: &'a mut [CellRecord],
}

impl<'a> RecordsHeap<'a> {
    // Makes a heap of new cells. The records beyond the size stay as they were, and the memory that the heap
    // writes is the caller's own, which comes back as the heap left it.
    pub fn new(memory: &'a mut [CellRecord]) -> RecordsHeap<'a>
        ensures made { MadeIn memory.entry result }
        ensures meaning { cells_of_records result ≡ new_cells (size_for (length memory.old)) }
        ensures sound { SoundRecords result }
    {
        let size = size_for(memory.len()) as usize;
        memory[..size].fill(CellRecord::new());
        RecordsHeap { cells: memory }
    }

    // Gives the memory back as the heap left it.
    pub fn release(self) -> &'a mut [CellRecord]
        ensures { result ≡ self.entry.cells }
    {
        let RecordsHeap { cells } = self;
        cells
    }
}

// The first grey record.
// Stays: a function of its own, since of a chain whose value goes on into a `?`, also by a `let`, a proof has the runs of
// the closure and no equation with `position`; tried in `first_grey`.
fn first_grey_in(records: &[CellRecord]) -> Option<usize>
    ensures { result ≡ position (λ r. is_grey r.mark) records.now }
{
    records.iter().position(|record| record.mark.is_grey())
}

// Sound if all contents of the cells are in range.
// Stays: `write`, `paint` and `exchange` repeat the trait's clauses, since a method with a clause of its own has its
// clauses in place of the trait's.
impl<'a> Heap for RecordsHeap<'a> {
    ghost meaning = { λ h. cells_of_records h };

    ghost sound = { λ h. SoundRecords h };

    ghost lawful = { λ h s. s };

    fn size(&self) -> u32
        ensures { result ≡ size_for (length self.now.cells.now) }
    {
        size_for(self.cells.len())
    }

    fn read(&self, index: u32) -> Result<CellRecord, HeapFault> {
        check_index(self.size(), index)?;
        Ok(self.cells[index as usize])
    }

    #[tactic(auto, using(crate::proofs::Calls::written, crate::proofs::Calls::written_sound))]
    fn write(&mut self, index: u32, links: LinkRecord) -> Result<(), HeapFault>
        ensures result { SoundRecords self.old → result ≡ write_answer (cells_of_records self.old) index links }
        ensures after { SoundRecords self.old → cells_of_records self.new ≡ write_cells (cells_of_records self.old) index links }
        ensures kept { SoundRecords self.old → SoundRecords self.new }
        ensures beyond { SameBeyond self.old self.new }
    {
        check_write(self.size(), index, links)?;
        self.cells[index as usize] = self.cells[index as usize].relinked(links);
        Ok(())
    }

    #[tactic(auto, using(crate::proofs::Calls::painted, crate::proofs::Calls::painted_sound))]
    fn paint(&mut self, index: u32, colour: Colour) -> Result<(), HeapFault>
        ensures result { SoundRecords self.old → result ≡ paint_answer (cells_of_records self.old) index }
        ensures after { SoundRecords self.old → cells_of_records self.new ≡ paint_cells (cells_of_records self.old) index colour }
        ensures kept { SoundRecords self.old → SoundRecords self.new }
        ensures beyond { SameBeyond self.old self.new }
    {
        check_index(self.size(), index)?;
        self.cells[index as usize] = self.cells[index as usize].repainted(colour);
        Ok(())
    }

    #[tactic(auto, using(crate::proofs::Calls::found_some, crate::proofs::Calls::found_none))]
    fn first_grey(&self, from: u32) -> Option<u32>
        ensures { result ≡ first_grey (cells_of_records self.now) from }
    {
        let size = self.size();
        let from = from.min(size);
        let found = first_grey_in(&self.cells[from as usize..size as usize])?;
        Some(from + found as u32)
    }

    #[tactic(auto, using(cells::proofs::Memory::exchange_more, crate::proofs::Calls::swapped, crate::proofs::Calls::swapped_sound))]
    fn exchange(&mut self) -> Result<(), HeapFault>
        ensures result { SoundRecords self.old → result ≡ exchange_answer (cells_of_records self.old) }
        ensures after { SoundRecords self.old → cells_of_records self.new ≡ exchange_cells (cells_of_records self.old) }
        ensures kept { SoundRecords self.old → SoundRecords self.new }
        ensures beyond { SameBeyond self.old self.new }
    {
        check_exchange(self.first_grey(0))?;
        let size = self.size() as usize;
        // Stays: `0..size` and not `..size`, of which a proof knows the length alone where the slice is a field.
        for cell in &mut self.cells[0..size] {
            *cell = cell.exchanged();
        }
        Ok(())
    }
}
