//! What a planes heap is lent: records and three planes of bits.
ghost use Rattle.std.specs.Prelude.{◌≡◌, ◌*◌, ◌<◌, length};
ghost use Rattle.planes.specs.Planes.{planes_size};
ghost use Rattle.planes.specs.Whole.{MarkPainted, Renewed, SweepPainted, swapped_parts};

use crate::bits::{clear_bits, set_bit};
use cells::{LinkRecord, MarkColour, SweepColour};

// The memory that a planes heap is lent. Cell i is record i and bit i of each plane; what lies beyond the size is
// never written. A bit of the grey plane says that a cell is grey. The mark and the sweep plane are set for black,
// and change their parts at each exchange.
// Stays: four slices side by side, since docs/HEAPS.md has a planes heap work on these four pieces of lent memory.
#[derive(Drop)]
pub struct PlanesMemory<'a> {
    pub links: &'a mut [LinkRecord],
    pub grey: &'a mut [u8],
    pub mark: &'a mut [u8],
    pub sweep: &'a mut [u8],
}

impl<'a> PlanesMemory<'a> {
    // How many cells have room. A length is lowered before it is multiplied.
    pub(crate) fn room(&self) -> usize
        ensures { result ≡ planes_size self.now }
    {
        let (grey, mark, sweep) = (self.grey.len(), self.mark.len(), self.sweep.len());
        let bytes = grey.min(mark.min(sweep)).min(2048);
        self.links.len().min(8 * bytes)
    }

    // Makes all cells new.
    // Stays: `0..size` and not `..size`, of which a proof knows the length alone where the slice is a field.
    pub(crate) fn renew(&mut self)
        ensures { Renewed self.old self.new }
    {
        let size = self.room();
        self.links[0..size].fill(LinkRecord::new());
        clear_bits(self.grey, size);
        clear_bits(self.mark, size);
        clear_bits(self.sweep, size);
    }

    // Paints a mark colour: one bit of the grey plane and one of the mark plane.
    pub(crate) fn paint_mark(&mut self, i: usize, mark: MarkColour)
        requires { (i < 8 * length self.old.grey.now) × (i < 8 * length self.old.mark.now) }
        ensures { MarkPainted i mark self.old self.new }
    {
        set_bit(self.grey, i, mark.is_grey());
        set_bit(self.mark, i, mark == MarkColour::Black);
    }

    // Paints a sweep colour: one bit of the sweep plane.
    pub(crate) fn paint_sweep(&mut self, i: usize, sweep: SweepColour)
        requires { i < 8 * length self.old.sweep.now }
        ensures { SweepPainted i sweep self.old self.new }
    {
        set_bit(self.sweep, i, sweep == SweepColour::Black);
    }

    // The two black planes change their parts. No byte is touched.
    pub(crate) fn swap_parts(&mut self)
        ensures { self.new ≡ swapped_parts self.old }
    {
        std::mem::swap(&mut self.mark, &mut self.sweep);
    }
}
