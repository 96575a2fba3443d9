//! The walk that numbers the cells of a pattern.
ghost use Rattle.std.specs.Prelude.{◌≡◌};
ghost use Rattle.saving.specs.Tables.{both_met_in, cell_at_in, numbered_in, tables, walked_in};
ghost use Rattle.saving.specs.Walk.{Becomes, tables_of};

use crate::tables::{Walk, clear};
use cells::{Content, Heap, look};
use numbering::entry;

impl Walk<'_> {
    // The cell with this number, if one has it yet.
    fn cell_at(&self, number: u32) -> Option<u32>
        ensures { result ≡ cell_at_in (tables_of self.now) number }
    {
        (number < u32::from(self.count)).then(|| entry(self.order, number))
    }

    // Meets both contents of a cell, left before right.
    fn visit<H: Heap>(&mut self, heap: &H, cell: u32)
        ensures { H.sound heap.now → Becomes self.old self.new (both_met_in (H.meaning heap.now) (tables_of self.old) cell) }
    {
        let links = look(heap, cell).links;
        self.meet(links.left);
        self.meet(links.right);
    }

    // Goes through the cells in the order of their numbers until there is no further one.
    // Stays: the numbers are counted, since the order grows while it is gone through.
    #[tactic(auto, using(crate::proofs::Turns::walked_stays))]
    fn go<H: Heap>(&mut self, heap: &H)
        ensures { H.sound heap.now → Becomes self.old self.new (walked_in (H.meaning heap.now) (tables_of self.old) (H.meaning heap.now).size) }
    {
        for number in 0..heap.size() {
            let Some(cell) = self.cell_at(number) else {
                return;
            };
            self.visit(heap, cell);
        }
    }
}

// Numbers the cells of the pattern whose first cell is `first`, and answers how many they are.
pub fn number_cells<H: Heap>(heap: &H, first: u32, numbers: &mut [u16], order: &mut [u16]) -> u32
    ensures { H.sound heap.now → tables result numbers.new order.new ≡ numbered_in (H.meaning heap.now) first numbers.old order.old }
{
    clear(numbers, heap.size());
    let mut walk = Walk {
        numbers,
        order,
        count: 0,
    };
    walk.meet(Content::Cell(first));
    walk.go(heap);
    u32::from(walk.count)
}
