//! The two tables of a walk. By cell: its number, or 65,535 if it is not met. By number: the cell.
ghost use Rattle.std.specs.Prelude.{◌≡◌, ◌==◌, slice_index, slice_set};
ghost use Rattle.saving.specs.Tables.{cell_met_in, cleared_in, entered_in, entry_for, met_in};
ghost use Rattle.saving.specs.Walk.{Becomes, tables_of};

use cells::Content;
use numbering::entry;

// In place of a number: the cell is not met.
// Stays: a number and no Option, since the table is the caller's, who reads this format (docs/ARCHIVE.md).
const NOT_MET: u16 = 65535;

// The tables in the memory lent to a walk, and how many cells are met.
// Stays: slices with a count beside them, since memory is lent here and never allocated.
#[derive(Drop)]
pub struct Walk<'a> {
    pub numbers: &'a mut [u16],
    pub order: &'a mut [u16],
    pub count: u16,
}

// Sets what stands at a place of a table; nothing past its end.
// Stays: a test of the length, since a proof knows no entry of a slice once a `get_mut` of it is over.
fn set_entry(table: &mut [u16], place: u16, value: u16)
    ensures { table.new ≡ slice_set table.old place value }
{
    let place = usize::from(place);
    if place < table.len() {
        table[place] = value;
    }
}

// The number of a cell as an entry of a table.
pub fn entry_for(cell: u32) -> u16
    ensures { result ≡ entry_for cell }
{
    u16::try_from(cell).unwrap_or(NOT_MET)
}

impl Walk<'_> {
    fn is_new(&self, cell: u16) -> bool
        ensures { result ≡ (slice_index self.now.numbers.now cell == 65535) }
    {
        entry(self.numbers, u32::from(cell)) == u32::from(NOT_MET)
    }

    // Gives a cell the next number.
    fn enter(&mut self, cell: u16)
        ensures { Becomes self.old self.new (entered_in (tables_of self.old) cell) }
    {
        set_entry(self.numbers, cell, self.count);
        set_entry(self.order, self.count, cell);
        self.count = self.count.saturating_add(1);
    }

    fn meet_cell(&mut self, cell: u16)
        ensures { Becomes self.old self.new (cell_met_in (tables_of self.old) cell) }
    {
        if self.is_new(cell) {
            self.enter(cell);
        }
    }

    // Meets a content: a cell that has no number yet gets the next one.
    pub fn meet(&mut self, content: Content)
        ensures { Becomes self.old self.new (met_in (tables_of self.old) content) }
    {
        if let Some(cell) = content.cell() {
            self.meet_cell(entry_for(cell));
        }
    }
}

// Says of each of `size` cells that it is not met; further entries stay as they are.
pub fn clear(numbers: &mut [u16], size: u32)
    ensures { numbers.new ≡ cleared_in numbers.old size }
{
    let cleared = numbers.len().min(size as usize);
    numbers[..cleared].fill(NOT_MET);
}
