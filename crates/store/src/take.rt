//! Take: the units that it runs, and the cell that it gives.
ghost use Rattle.std.specs.Prelude.{◌≡◌, ◌<◌};
ghost use Rattle.model.specs.Take.{after_take, front_answer, hunt_for, hunted_units, take_answer, take_front, take_joint, units_run, worked};
ghost use Rattle.pace.specs.Paces.{pace_of};
ghost use Rattle.store.specs.Fits.{OrderFits};
ghost use Rattle.store.specs.View.{Answers, Becomes, view};

use crate::whole::Store;
use cells::{Content, Heap, Joint, look};
use lines::PatternCell;
use model::StoreFault;
use pace::Pace;
use steps::give;

// What a take that nothing refuses asks for: a cell with this joint and the contents of two holds, in hold `hold`.
#[derive(Clone, Copy)]
struct Order {
    hold: u32,
    joint: Joint,
    left: u32,
    right: u32,
}

impl<H: Heap> Store<H> {
    // Units until a cell is free, at most `limit`; answers how many.
    #[tactic(auto, using(crate::proofs::Units::hunt_found))]
    fn hunt(&mut self, limit: u32) -> u32
        ensures answer { Answers H.Heap self.old result (hunted_units limit) }
        ensures after { Becomes H.Heap self.old self.new (hunt_for limit) }
    {
        for units in 0..limit {
            if !self.free.is_empty() {
                return units;
            }
            self.unit();
        }
        limit
    }

    // Runs the units of a take; answers how many.
    fn labour(&mut self, pace: Pace) -> u32
        ensures answer { Answers H.Heap self.old result (λ s. units_run s (pace_of pace)) }
        ensures after { Becomes H.Heap self.old self.new (λ s. worked s (pace_of pace)) }
    {
        let span = self.span();
        if self.free.is_empty() {
            self.hunt(span.saturating_mul(3))
        } else {
            let units = pace.units(span, self.free.count);
            self.work(units);
            units
        }
    }

    // Gives the front of the free list away.
    fn give_front(&mut self, order: Order) -> u32
        ensures answer { result ≡ self.old.free.front }
        ensures after { 0 < self.old.free.count → OrderFits self.old order → Becomes H.Heap self.old self.new (λ s. take_front s s.free order.hold order.joint order.left order.right) }
    {
        let cell = self.free.front;
        // Stays: 0 for none, since the front is read again only where a cell is left, and that one's link is a cell.
        let next = look(&self.heap, cell).links.left.cell().unwrap_or(0);
        let left = self.holds.content(order.left);
        let right = self.holds.content(order.right);
        let line = PatternCell {
            joint: order.joint,
            left,
            right,
        };
        give(&mut self.heap, cell, line, self.place);
        self.free.drop_front(next);
        self.holds.set(order.hold, Content::Cell(cell));
        cell
    }

    // The front of the free list, if a cell is free after so many units.
    // Stays: the pair of numbers is take's answer.
    #[tactic(auto, using(crate::proofs::Accepted::front_given, crate::proofs::Units::some_by_count))]
    fn grant(&mut self, order: Order, units: u32) -> Result<(u32, u32), StoreFault>
        ensures answer { result ≡ front_answer (view H.Heap self.old).free units }
        ensures after { OrderFits self.old order → Becomes H.Heap self.old self.new (λ s. take_front s s.free order.hold order.joint order.left order.right) }
    {
        if self.free.is_empty() {
            return Err(StoreFault::NoCell(units));
        }
        let cell = self.give_front(order);
        Ok((cell, units))
    }

    // What a take refuses before it runs a unit.
    fn check_take(&self, hold: u32, joint: u8, left: u32, right: u32) -> Result<Joint, StoreFault>
        ensures { result ≡ take_joint (view H.Heap self.now) hold joint left right }
    {
        self.holds.check(hold)?;
        self.holds.check(left)?;
        self.holds.check(right)?;
        Ok(Joint::try_from(joint)?)
    }

    // A new cell with the contents of two holds, in a third: the cell and the units run.
    // Stays: the answer is a pair of numbers, as the rules of take have it.
    pub(crate) fn take(
        &mut self,
        hold: u32,
        joint: u8,
        left: u32,
        right: u32,
        pace: Pace,
    ) -> Result<(u32, u32), StoreFault>
        ensures answer { Answers H.Heap self.old result (λ s. take_answer s hold joint left right (pace_of pace)) }
        ensures after { Becomes H.Heap self.old self.new (λ s. after_take s hold joint left right (pace_of pace)) }
    {
        let joint = self.check_take(hold, joint, left, right)?;
        let units = self.labour(pace);
        let order = Order {
            hold,
            joint,
            left,
            right,
        };
        self.grant(order, units)
    }
}
