//! Where the marker is.
ghost use Rattle.std.specs.Prelude.{◌≡◌};
ghost use Rattle.model.specs.Collector.{next_stage, stage_after, stage_answer};

use crate::answer::MarkAnswer;

// Marking (tracing what the roots reach) goes through the holds, then through the grey cells, until none is left.
#[derive(Clone, Copy, Debug, PartialEq)]
pub enum Stage {
    // the content of this hold is shaded next
    AtHold(u32),
    // the next grey cell is searched from this cell on
    AtCell(u32),
    // no cell is grey
    Ended,
}

// Behind a hold comes the next one, and behind the last one the search for grey cells.
fn behind_hold(hold_count: u32, hold: u32) -> Stage
    ensures { result ≡ next_stage hold_count hold }
{
    match hold.checked_add(1) {
        Some(next) if next < hold_count => Stage::AtHold(next),
        _ => Stage::AtCell(0),
    }
}

impl Stage {
    // One mark as the stage sees it: it looks at itself and at the grey cell that was found, is replaced, and tells what
    // was marked.
    pub fn advance(&mut self, hold_count: u32, found: Option<u32>) -> MarkAnswer
        ensures stage { self.new ≡ stage_after hold_count self.old found }
        ensures answer { result ≡ stage_answer self.old found }
    {
        match (*self, found) {
            (Stage::AtHold(hold), _) => {
                *self = behind_hold(hold_count, hold);
                MarkAnswer::Hold(hold)
            }
            (Stage::AtCell(_), Some(cell)) => {
                *self = Stage::AtCell(cell);
                MarkAnswer::Cell(cell)
            }
            _ => {
                *self = Stage::Ended;
                MarkAnswer::Ended
            }
        }
    }
}
