//! Paces as numbers set them, the units that they give, and a task's pace, which is gone when the task ends.
ghost use Rattle.std.specs.Prelude.{◌≡◌, true, false};
ghost use Rattle.model.specs.Take.{units_for};
ghost use Rattle.pace.specs.Paces.{pace_of};

use crate::guard::{PaceGuard, PaceRecord};
use crate::limits::Pace;

fn limits(least: u32, most: u32) -> (u32, u32) {
    let pace = Pace::new(least, most);
    (pace.least(), pace.most())
}

#[test]
fn sets_any_numbers(rt: HostRuntime) {
    assert_eq!(rt; limits(2, 5), (2, 5));
    assert_eq!(rt; limits(9, 4), (4, 4));
    assert_eq!(rt; limits(70000, 3), (3, 3));
    assert_eq!(rt; limits(70000, 80000), (65535, 65535));
    assert_eq!(rt; limits(u32::MAX, u32::MAX), (65535, 65535));
}

#[test]
fn gives_units(rt: HostRuntime) {
    assert_eq!(rt; Pace::widest().units(6, 3), 2);
    assert_eq!(rt; Pace::new(3, 65535).units(6, 3), 3);
    assert_eq!(rt; Pace::new(9, 9).units(6, 3), 9);
    assert_eq!(rt; Pace::new(0, 1).units(6, 3), 1);
    assert_eq!(rt; Pace::new(0, 0).units(6, 3), 0);
    assert_eq!(rt; Pace::widest().units(6, 4), 2, "a share is rounded up");
    assert_eq!(rt; Pace::widest().units(u32::MAX, u32::MAX), 1, "no sum wraps");
    assert_eq!(rt; Pace::new(3, 9).units(6, 0), 0, "no cell is free");
}

// The units of one take that finds two of its store's cells free, at a pace of its own; none where the task stops
// before it.
// Stays: 0 for none, the value that the tests ask for.
fn under_pace(paces: &mut PaceRecord, pace: Pace, stop: bool) -> u32
    ensures back { paces.new.current ≡ paces.old.current }
    ensures stopped { stop ≡ true → result ≡ 0 }
    ensures ran { stop ≡ false → result ≡ units_for (pace_of pace) 6 2 }
{
    let guard = paces.begin_task(pace);
    if stop {
        return 0;
    }
    guard.pace().units(6, 2)
}

#[test]
fn restores_the_earlier_pace(rt: HostRuntime) {
    let mut paces = PaceRecord::new();
    assert_eq!(rt; under_pace(&mut paces, Pace::new(7, 9), false), 7);
    assert_eq!(rt; paces.current(), Pace::widest(), "after the last take");
    paces.enter(Pace::new(1, 1));
    assert_eq!(rt; under_pace(&mut paces, Pace::new(7, 9), true), 0);
    assert_eq!(rt; paces.current(), Pace::new(1, 1), "after an early return");
}
