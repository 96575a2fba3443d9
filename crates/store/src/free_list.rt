//! The free list, as the store keeps it: its two ends and its count. The cells between are linked in the heap.
ghost use Rattle.std.specs.Prelude.{◌≡◌, ◌==◌};
ghost use Rattle.store.specs.Listing.{list_end, list_of_all, list_pushed, list_without_front};

// The first and the last free cell, which are known only while there are any, and how many there are.
// Stays: numbers beside a count and no Option of the two ends, which would say a second time whether the count is 0.
#[derive(Drop)]
pub struct FreeList {
    pub(crate) front: u32,
    pub(crate) last: u32,
    pub(crate) count: u32,
}

impl FreeList {
    // All cells of a heap, in rising order.
    pub(crate) fn of_all(size: u32) -> FreeList
        ensures { result ≡ list_of_all size }
    {
        FreeList {
            front: 0,
            last: size.saturating_sub(1),
            count: size,
        }
    }

    pub(crate) fn is_empty(&self) -> bool
        ensures { result ≡ (self.now.count == 0) }
    {
        self.count == 0
    }

    // The last cell of the list, if it has any.
    pub(crate) fn end(&self) -> Option<u32>
        ensures { result ≡ list_end self.now }
    {
        (!self.is_empty()).then_some(self.last)
    }

    // A cell is put back behind the others.
    pub(crate) fn push(&mut self, cell: u32)
        ensures { self.new ≡ list_pushed self.old cell }
    {
        if self.is_empty() {
            self.front = cell;
        }
        self.last = cell;
        self.count = self.count.saturating_add(1);
    }

    // The front is given away, and `next` is the front behind it.
    pub(crate) fn drop_front(&mut self, next: u32)
        ensures { self.new ≡ list_without_front self.old next }
    {
        self.front = next;
        self.count = self.count.saturating_sub(1);
    }
}
