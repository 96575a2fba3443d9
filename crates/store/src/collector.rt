//! Open, mark, sweep, turn and unit.
ghost use Rattle.std.specs.Prelude.{◌≡◌, true, ◌&&◌};
ghost use Rattle.model.specs.Collector.{after_mark, after_sweep, after_turn, after_unit, after_units, can_turn, mark_answer, next_grey, pass_by, put_back, puts_back, span, sweep_answer, turn_answer, turned, used_tag, white_sweep};
ghost use Rattle.model.specs.State.{opened};
ghost use Rattle.cells.specs.declared.cell.SweepColour.TheVariants.{White, Black};
ghost use Rattle.cells.specs.declared.cell.Tag.TheVariants.{Used};
ghost use Rattle.store.specs.Fits.{PlaceIsCell};
ghost use Rattle.store.specs.Marking.{found_at, found_cells, marked_cells};
ghost use Rattle.store.specs.View.{Answers, Becomes, InState, WellFormed, view, with_heap};

use crate::free_list::FreeList;
use crate::table::HoldTable;
use crate::whole::Store;
use cells::{CellRecord, Heap, SweepColour, Tag, look};
use model::{MarkAnswer, Stage, StoreFault};
use steps::{blacken, next_grey, reset, shade, whiten};

// Does the sweeper put this cell back? It does if the cell is used and white.
fn is_lost(cell: CellRecord) -> bool
    ensures { result ≡ used_tag cell.links.tag && white_sweep cell.sweep }
{
    cell.links.tag == Tag::Used && cell.sweep == SweepColour::White
}

impl<H: Heap> Store<H> {
    // A new store over a heap, whatever it held, with 1 to 96 holds.
    pub(crate) fn open(mut heap: H, holds: u32) -> Store<H>
        ensures { H.sound heap → InState H.Heap result (opened (H.meaning heap).size holds) }
    {
        let size = heap.size();
        reset(&mut heap);
        Store {
            heap,
            holds: HoldTable::new(holds),
            stage: Stage::AtHold(0),
            place: size,
            free: FreeList::of_all(size),
        }
    }

    // Blackens the grey cell that a mark at cell `from` finds.
    fn mark_cell(&mut self, from: u32) -> Option<u32>
        ensures found { Answers H.Heap self.old result (λ s. next_grey s.cells from) }
        ensures cells { WellFormed H.Heap self.old → (H.meaning self.new.heap ≡ found_cells (H.meaning self.old.heap) (next_grey (H.meaning self.old.heap) from)) × H.sound self.new.heap }
        ensures rest { self.new ≡ with_heap self.old self.new.heap }
    {
        let found = next_grey(&self.heap, from);
        if let Some(cell) = found {
            blacken(&mut self.heap, cell);
        }
        found
    }

    // What a mark does to the cells, and the grey cell that it finds.
    fn trace(&mut self) -> Option<u32>
        ensures found { Answers H.Heap self.old result (λ s. found_at s.cells s.stage) }
        ensures cells { WellFormed H.Heap self.old → (H.meaning self.new.heap ≡ marked_cells (view H.Heap self.old) self.old.stage) × H.sound self.new.heap }
        ensures rest { self.new ≡ with_heap self.old self.new.heap }
    {
        match self.stage {
            Stage::AtHold(hold) => {
                let content = self.holds.content(hold);
                shade(&mut self.heap, content);
                None
            }
            Stage::AtCell(from) => self.mark_cell(from),
            Stage::Ended => None,
        }
    }

    // One step of the marker.
    pub(crate) fn mark(&mut self) -> MarkAnswer
        ensures answer { Answers H.Heap self.old result mark_answer }
        ensures after { Becomes H.Heap self.old self.new after_mark }
    {
        let found = self.trace();
        self.stage.advance(self.holds.count, found)
    }

    // Puts the cell back that the sweeper is at, and goes on.
    fn put_back(&mut self)
        ensures { PlaceIsCell H.Heap self.old → (H.meaning self.old.heap).tag self.old.place ≡ Used → (H.meaning self.old.heap).sweep self.old.place ≡ White → Becomes H.Heap self.old self.new put_back }
    {
        steps::put_back(&mut self.heap, self.free.end(), self.place);
        self.free.push(self.place);
        self.place = self.place.saturating_add(1);
    }

    // Passes the cell that the sweeper is at.
    fn pass_by(&mut self)
        ensures { PlaceIsCell H.Heap self.old → ((H.meaning self.old.heap).tag self.old.place ≡ Used → (H.meaning self.old.heap).sweep self.old.place ≡ Black) → Becomes H.Heap self.old self.new pass_by }
    {
        whiten(&mut self.heap, self.place);
        self.place = self.place.saturating_add(1);
    }

    // Sweeps the cell that the sweeper is at; answers whether it was put back.
    fn sweep_cell(&mut self) -> bool
        ensures answer { PlaceIsCell H.Heap self.old → Answers H.Heap self.old result puts_back }
        ensures after { PlaceIsCell H.Heap self.old → Becomes H.Heap self.old self.new after_sweep }
    {
        if is_lost(look(&self.heap, self.place)) {
            self.put_back();
            true
        } else {
            self.pass_by();
            false
        }
    }

    // One step of the sweeper: the cell and whether it was put back, or none at the end.
    // Stays: the answer is a cell and a flag, as the rules of sweep have it.
    pub(crate) fn sweep(&mut self) -> Option<(u32, bool)>
        ensures answer { Answers H.Heap self.old result sweep_answer }
        ensures after { Becomes H.Heap self.old self.new after_sweep }
    {
        let cell = self.place;
        if cell >= self.heap.size() {
            return None;
        }
        let back = self.sweep_cell();
        Some((cell, back))
    }

    // Have marking and sweeping ended?
    fn may_turn(&self) -> bool
        ensures { Answers H.Heap self.now result can_turn }
    {
        self.stage == Stage::Ended && self.place == self.heap.size()
    }

    // Exchanges the colours and starts again.
    #[tactic(auto, using(crate::proofs::Sweeps::turn_state))]
    fn turn_round(&mut self)
        ensures { can_turn (view H.Heap self.old) ≡ true → Becomes H.Heap self.old self.new turned }
    {
        let _ = self.heap.exchange();
        self.stage = Stage::AtHold(0);
        self.place = 0;
    }

    // The turn: what was marked is swept next.
    pub(crate) fn turn(&mut self) -> Result<(), StoreFault>
        ensures answer { Answers H.Heap self.old result turn_answer }
        ensures after { Becomes H.Heap self.old self.new after_turn }
    {
        if !self.may_turn() {
            return Err(StoreFault::TooEarly);
        }
        self.turn_round();
        Ok(())
    }

    // One increment of the collector's work.
    pub(crate) fn unit(&mut self)
        ensures { Becomes H.Heap self.old self.new after_unit }
    {
        self.mark();
        self.sweep();
        let _ = self.turn();
    }

    // So many units.
    pub(crate) fn work(&mut self, units: u32)
        ensures { Becomes H.Heap self.old self.new (after_units units) }
    {
        for _unit in 0..units {
            self.unit();
        }
    }

    // K: how many units contain a turn.
    pub(crate) fn span(&self) -> u32
        ensures { Answers H.Heap self.now result span }
    {
        self.holds
            .count
            .saturating_add(self.heap.size())
            .saturating_add(1)
    }
}
