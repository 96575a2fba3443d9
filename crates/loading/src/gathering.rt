//! The first pass: the cells of the free list, read into a table.
ghost use Rattle.std.specs.Prelude.{◌≡◌, ℕ, List, length};
ghost use Rattle.loading.specs.Gather.{Gathered, Listed};
ghost use Rattle.steps.specs.Steps.{cell_in};

use cells::{Heap, look};

// The cell behind a cell of the free list, which that one names on its left; 0 behind the last one.
// Stays: no Option, since a caller that counts the free cells reads the answer only where one is left. `store` says the
// same in a line: a function for both would hide this one's step from the edit that turns it here, a rule of the project.
fn next_free<H: Heap>(heap: &H, cell: u32) -> u32
    ensures { H.sound heap.now → result ≡ cell_in ((H.meaning heap.now).left cell) }
{
    look(heap, cell).links.left.cell().unwrap_or(0)
}

// Tells the cells of the free list, which begins at `front`, one in each place; answers the cell behind them. A cell
// whose number has more than 16 bits would leave its place as it is.
fn tell<H: Heap>(heap: &H, front: u32, places: &mut [u16]) -> u32
    ensures { (free : List ℕ) → H.sound heap.now → Listed (H.meaning heap.now) free front (length places.old) places.old → Gathered free (length places.old) places.old places.new result }
{
    let mut cell = front;
    for place in places.iter_mut() {
        *place = u16::try_from(cell).unwrap_or(*place);
        cell = next_free(heap, cell);
    }
    cell
}

// Reads the first `count` cells of the free list, which begins at `front`, into the table; changes no cell. Answers the
// cell behind them, where the list then begins.
// Stays: a count beside the table, since the promise speaks of any two and a table may be longer.
pub fn gather<H: Heap>(heap: &H, front: u32, count: u32, places: &mut [u16]) -> u32
    ensures { (free : List ℕ) → H.sound heap.now → Listed (H.meaning heap.now) free front count places.old → Gathered free count places.old places.new result }
{
    let count = places.len().min(count as usize);
    tell(heap, front, &mut places[..count])
}
