//! Counting the grey cells of any heap, and the count after a paint.
ghost use Rattle.std.specs.Prelude.{◌≡◌, ◌≤◌};
ghost use Rattle.cells.specs.Count.{grey_count};
ghost use Rattle.cells.specs.Record.{grey_weight};
ghost use Rattle.tally.specs.Tally.{recount};

use cells::{Colour, Heap, look};

// 1 if there is such a cell and it is grey, else 0. No sound heap has so many cells that a count comes near
// the greatest number.
#[tactic(auto, using(cells::proofs::Counted::weight_le))]
pub(crate) fn grey_at<H: Heap>(heap: &H, index: u32) -> u32
    ensures few { H.sound heap.now → (H.meaning heap.now).size ≤ 16384 }
    ensures small { result ≤ 1 }
    ensures exact { H.sound heap.now → result ≡ grey_weight ((H.meaning heap.now).mark index) }
{
    look(heap, index).mark.grey_weight()
}

// How many cells are grey.
// Stays: a loop, since `map` and `sum` of the same take twice the time.
#[tactic(auto, using(crate::proofs::Recounted::counted_more))]
pub(crate) fn count_grey<H: Heap>(heap: &H) -> u32
    ensures { H.sound heap.now → result ≡ grey_count (H.meaning heap.now) }
{
    let mut count = 0;
    for index in 0..heap.size() {
        count += grey_at(heap, index);
    }
    count
}

// The count once a cell was painted that counted `was`: a mark colour takes that away and counts anew, a
// sweep colour is not counted. On a sound heap neither sum is ever held back by the numbers' range.
pub(crate) fn recounted(count: u32, was: u32, colour: Colour) -> u32
    ensures { result ≡ recount count was colour }
{
    match colour {
        Colour::Mark(mark) => count.saturating_sub(was).saturating_add(mark.grey_weight()),
        Colour::Sweep(_) => count,
    }
}
