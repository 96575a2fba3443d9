//! A heap with a count of its grey cells on top.
ghost use Rattle.std.specs.Prelude.{◌≡◌, None};
ghost use Rattle.cells.specs.Calls.{first_grey};
ghost use Rattle.cells.specs.Count.{grey_count};

use crate::count::{count_grey, grey_at, recounted};
use cells::{CellRecord, Colour, Heap, HeapFault, LinkRecord};

// The heap below, and how many of its cells are grey.
#[derive(Drop)]
pub struct GreyTally<H: Heap> {
    below: H,
    count: u32,
}

impl<H: Heap> GreyTally<H> {
    // Lays a tally over a heap, which stays as it is.
    pub fn lay(below: H) -> GreyTally<H>
        ensures below { result.below ≡ below }
        ensures sound { H.sound below → H.sound result.below × (result.count ≡ grey_count (H.meaning result.below)) }
    {
        let count = count_grey(&below);
        GreyTally { below, count }
    }

    // Takes the tally off again: the heap below, as it is.
    pub fn lift(self) -> H
        ensures { result ≡ self.below }
    {
        let GreyTally { below, .. } = self;
        below
    }
}

// It means what the heap below means, and is sound if that is and the count is right.
impl<H: Heap> Heap for GreyTally<H> {
    ghost meaning = { λ t. H.Heap.meaning t.below };

    ghost sound = { λ t. H.Heap.sound t.below × (t.count ≡ grey_count (H.Heap.meaning t.below)) };

    ghost lawful = { λ t s. H.Heap.lawful t.below s.0 };

    fn size(&self) -> u32 {
        self.below.size()
    }

    fn read(&self, index: u32) -> Result<CellRecord, HeapFault> {
        self.below.read(index)
    }

    fn write(&mut self, index: u32, links: LinkRecord) -> Result<(), HeapFault> {
        self.below.write(index, links)
    }

    #[tactic(auto, using(crate::proofs::Recounted::recount_done))]
    fn paint(&mut self, index: u32, colour: Colour) -> Result<(), HeapFault> {
        let was = grey_at(&self.below, index);
        self.below.paint(index, colour)?;
        self.count = recounted(self.count, was, colour);
        Ok(())
    }

    // While the count is 0 the heap below is not asked: the answer is none, whatever that heap is.
    // Stays: `found` is the trait's clause, which has to be repeated beside a clause of the method's own.
    #[tactic(auto, using(cells::proofs::Counted::zero_first))]
    fn first_grey(&self, from: u32) -> Option<u32>
        ensures found { H.sound self.now.below × (self.now.count ≡ grey_count (H.meaning self.now.below)) → result ≡ first_grey (H.meaning self.now.below) from }
        ensures unasked { self.now.count ≡ 0 → result ≡ None }
    {
        if self.count == 0 {
            return None;
        }
        self.below.first_grey(from)
    }

    // The count stays: no cell was grey, and none becomes grey.
    #[tactic(auto, using(cells::proofs::Counted::count_exchange))]
    fn exchange(&mut self) -> Result<(), HeapFault> {
        self.below.exchange()
    }
}
