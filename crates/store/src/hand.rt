//! The designer's hand (the mutator): yarn, drop, copy, follow and tie.
ghost use Rattle.std.specs.Prelude.{◌≡◌};
ghost use Rattle.cells.specs.declared.content.Content.TheVariants.{Cell};
ghost use Rattle.model.specs.Hand.{after_copy, after_drop, after_follow, after_tie, after_yarn, content_at, copy_answer, drop_answer, follow_answer, move_into, tie_answer, tie_to, yarn_answer};
ghost use Rattle.model.specs.State.{with_hold};
ghost use Rattle.store.specs.Fits.{IsHold};
ghost use Rattle.store.specs.Plain.{IsPlain};
ghost use Rattle.store.specs.View.{Answers, Becomes, view};

use crate::whole::Store;
use cells::{Content, Heap, LAST_YARN, Side, look};
use model::StoreFault;
use steps::{shade, tie_shaded};

impl<H: Heap> Store<H> {
    // A yarn, or nothing, in a hold.
    #[tactic(auto, using(crate::proofs::Hands::set_state))]
    fn set_plain(&mut self, hold: u32, content: Content)
        ensures { IsHold self.old hold → IsPlain content → Becomes H.Heap self.old self.new (λ s. with_hold s hold content) }
    {
        self.holds.set(hold, content);
    }

    // The content of a hold in another hold.
    fn copy_hold(&mut self, hold: u32, from: u32)
        ensures { IsHold self.old hold → IsHold self.old from → Becomes H.Heap self.old self.new (λ s. move_into s hold (s.hold from)) }
    {
        let content = self.holds.content(from);
        shade(&mut self.heap, content);
        self.holds.set(hold, content);
    }

    // A side of the cell in a hold, in another hold.
    fn follow_cell(&mut self, hold: u32, cell: u32, side: Side, into: u32)
        ensures { IsHold self.old hold → IsHold self.old into → (view H.Heap self.old).hold hold ≡ Cell cell → Becomes H.Heap self.old self.new (λ s. move_into s into (content_at s.cells side cell)) }
    {
        let content = look(&self.heap, cell).content_on(side);
        shade(&mut self.heap, content);
        self.holds.set(into, content);
    }

    // The content of a hold on a side of the cell in another hold.
    #[tactic(auto, using(crate::proofs::Hands::tie_state))]
    fn tie_cell(&mut self, hold: u32, cell: u32, side: Side, from: u32)
        ensures { IsHold self.old hold → IsHold self.old from → (view H.Heap self.old).hold hold ≡ Cell cell → Becomes H.Heap self.old self.new (λ s. tie_to s side cell (s.hold from)) }
    {
        let content = self.holds.content(from);
        tie_shaded(&mut self.heap, cell, side, content);
    }

    // Sets a hold to a yarn.
    #[tactic(auto, using(crate::proofs::Accepted::hand_calls))]
    pub(crate) fn yarn(&mut self, hold: u32, yarn: u32) -> Result<(), StoreFault>
        ensures answer { Answers H.Heap self.old result (λ s. yarn_answer s hold yarn) }
        ensures after { Becomes H.Heap self.old self.new (λ s. after_yarn s hold yarn) }
    {
        self.holds.check(hold)?;
        if yarn > LAST_YARN {
            return Err(StoreFault::YarnRange);
        }
        self.set_plain(hold, Content::Yarn(yarn));
        Ok(())
    }

    // Sets a hold to nothing.
    #[tactic(auto, using(crate::proofs::Accepted::hand_calls))]
    pub(crate) fn drop_hold(&mut self, hold: u32) -> Result<(), StoreFault>
        ensures answer { Answers H.Heap self.old result (λ s. drop_answer s hold) }
        ensures after { Becomes H.Heap self.old self.new (λ s. after_drop s hold) }
    {
        self.holds.check(hold)?;
        self.set_plain(hold, Content::Nothing);
        Ok(())
    }

    // Sets a hold to the content of another.
    #[tactic(auto, using(crate::proofs::Accepted::hand_calls))]
    pub(crate) fn copy(&mut self, hold: u32, from: u32) -> Result<(), StoreFault>
        ensures answer { Answers H.Heap self.old result (λ s. copy_answer s hold from) }
        ensures after { Becomes H.Heap self.old self.new (λ s. after_copy s hold from) }
    {
        self.holds.check(hold)?;
        self.holds.check(from)?;
        self.copy_hold(hold, from);
        Ok(())
    }

    // Sets a hold to a side of the cell in another.
    #[tactic(auto, using(crate::proofs::Accepted::hand_calls))]
    pub(crate) fn follow(&mut self, hold: u32, side: Side, into: u32) -> Result<(), StoreFault>
        ensures answer { Answers H.Heap self.old result (λ s. follow_answer s hold into) }
        ensures after { Becomes H.Heap self.old self.new (λ s. after_follow s hold side into) }
    {
        self.holds.check(hold)?;
        self.holds.check(into)?;
        // Stays: this form for a hold that contains no cell is a rule of the project (docs/DECISIONS.md, Forms that the
        // project fixes).
        let Content::Cell(cell) = self.holds.content(hold) else {
            return Err(StoreFault::NoCellHeld);
        };
        self.follow_cell(hold, cell, side, into);
        Ok(())
    }

    // Sets a side of the cell in a hold to the content of another hold.
    #[tactic(auto, using(crate::proofs::Accepted::hand_calls))]
    pub(crate) fn tie(&mut self, hold: u32, side: Side, from: u32) -> Result<(), StoreFault>
        ensures answer { Answers H.Heap self.old result (λ s. tie_answer s hold from) }
        ensures after { Becomes H.Heap self.old self.new (λ s. after_tie s hold side from) }
    {
        self.holds.check(hold)?;
        self.holds.check(from)?;
        // Stays: this form for a hold that contains no cell is a rule of the project (docs/DECISIONS.md, Forms that the
        // project fixes).
        let Content::Cell(cell) = self.holds.content(hold) else {
            return Err(StoreFault::NoCellHeld);
        };
        self.tie_cell(hold, cell, side, from);
        Ok(())
    }
}
