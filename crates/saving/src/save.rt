//! The save of one pattern.
ghost use Rattle.saving.specs.Saved.{Savable, Saved};

use crate::walk::number_cells;
use crate::writing::Numbered;
use cells::Heap;

// Numbers the pattern whose first cell is `first` into the two tables, and writes its text into the buffer.
// Answers how many cells it has and how long its text is; none, and nothing is written, if the buffer is shorter.
// Stays: a pair and no Option of one, since the tables are filled and the cells are counted in either case.
pub fn save_pattern<H: Heap>(
    heap: &H,
    first: u32,
    buffer: &mut [u8],
    numbers: &mut [u16],
    order: &mut [u16],
) -> (u32, Option<usize>)
    ensures { H.sound heap.now → Savable (H.meaning heap.now) first numbers.old order.old → Saved (H.meaning heap.now) first buffer.old numbers.old order.old result buffer.new numbers.new order.new }
{
    let count = number_cells(heap, first, numbers, order);
    let pattern = Numbered {
        heap,
        numbers,
        order,
        count,
    };
    (count, pattern.write(buffer))
}
