//! How a pace is set, and what it makes of a take.
ghost use Rattle.std.specs.Prelude.{◌≡◌, ◌<◌};
ghost use Rattle.model.specs.Take.{pace_set, units_for};
ghost use Rattle.pace.specs.Paces.{pace_of};

use crate::limits::Pace;

// No pace lets a take run more units.
const MOST_UNITS: u32 = 65535;

impl Pace {
    // The pace that two numbers set, whatever they are: `most` is lowered to 65,535, then `least` to `most`.
    pub fn new(least: u32, most: u32) -> Pace
        ensures { pace_of result ≡ pace_set least most }
    {
        let most = most.min(MOST_UNITS);
        let least = least.min(most);
        Pace { least, most }
    }

    // The pace with the widest limits, which is in force at the start.
    pub fn widest() -> Pace
        ensures { pace_of result ≡ pace_set 0 65535 }
    {
        Pace {
            least: 0,
            most: MOST_UNITS,
        }
    }

    pub fn least(&self) -> u32
        ensures { result ≡ (pace_of self.now).least }
    {
        self.least
    }

    pub fn most(&self) -> u32
        ensures { result ≡ (pace_of self.now).most }
    {
        self.most
    }

    // How many units a take runs that finds `free` cells free: with `span` as the number of units in a row that
    // always contain a turn (a flip of the collector), a share of them for each free cell, rounded up and kept
    // within the limits. None where no cell is free, since the pace plays no part in such a take.
    // Stays: 0 and no Option, since no units is a number of units, and the taker runs as many as it is told.
    #[tactic(auto, using(crate::proofs::Rounding::rounded_up))]
    pub fn units(&self, span: u32, free: u32) -> u32
        ensures paced { 0 < free → result ≡ units_for (pace_of self.now) span free }
        ensures unpaced { free ≡ 0 → result ≡ 0 }
    {
        if free == 0 {
            return 0;
        }
        span.div_ceil(free).clamp(self.least, self.most)
    }
}
