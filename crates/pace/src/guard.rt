//! The pace in force, and the guard that a task runs under.
ghost use Rattle.std.specs.Prelude.{◌≡◌};
ghost use Rattle.model.specs.Take.{pace_set};
ghost use Rattle.pace.specs.Paces.{pace_of};

use crate::limits::Pace;

// What a station keeps of paces: the one in force, and the one before it. One earlier pace is enough, since no task
// runs another one.
#[derive(Drop)]
pub struct PaceRecord {
    current: Pace,
    earlier: Pace,
}

impl PaceRecord {
    // At the start the widest pace is in force.
    pub fn new() -> PaceRecord
        ensures current { pace_of result.current ≡ pace_set 0 65535 }
        ensures earlier { pace_of result.earlier ≡ pace_set 0 65535 }
    {
        PaceRecord {
            current: Pace::widest(),
            earlier: Pace::widest(),
        }
    }

    // The pace in force.
    pub fn current(&self) -> Pace
        ensures { result ≡ self.now.current }
    {
        self.current
    }

    // Puts a pace in force, and keeps the one so far.
    pub fn enter(&mut self, pace: Pace)
        ensures current { self.new.current ≡ pace }
        ensures earlier { self.new.earlier ≡ self.old.current }
    {
        *self = PaceRecord {
            current: pace,
            earlier: self.current,
        };
    }

    // Begins a task with a pace of its own.
    pub fn begin_task(&mut self, pace: Pace) -> PaceGuard<'_>
        ensures same_record { result.paces.ghost_name ≡ self.entry.ghost_name }
        ensures current { result.paces.now.current ≡ pace }
        ensures earlier { result.paces.now.earlier ≡ self.old.current }
    {
        self.enter(pace);
        PaceGuard { paces: self }
    }
}

// A task (a batch of allocations) runs while this lives; when it goes, on whatever way the task ends, the pace that
// was kept is in force again.
pub struct PaceGuard<'a> {
    pub paces: &'a mut PaceRecord,
}

impl PaceGuard<'_> {
    // The pace in force, which is the task's.
    pub fn pace(&self) -> Pace
        ensures { result ≡ self.now.paces.now.current }
    {
        self.paces.current()
    }
}

impl Drop for PaceGuard<'_> {
    fn drop(self)
        ensures current { self.exit.0.now.current ≡ self.entry.paces.now.earlier }
        ensures earlier { self.exit.0.now.earlier ≡ self.entry.paces.now.earlier }
    {
        self.paces.current = self.paces.earlier;
        let PaceGuard { paces: _ } = self;
    }
}
