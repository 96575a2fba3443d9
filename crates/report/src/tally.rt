//! Counts over the cells of a pattern.
ghost use Rattle.std.specs.Prelude.{◌≡◌, ◌^◌};
ghost use Rattle.report.specs.Tally.{Upto, cell_noted, content_noted};

use archive::PatternCell;
use cells::{Content, Joint};

// What is in a pattern.
#[derive(Clone, Copy, Default)]
pub struct Summary {
    pub cells: u32,
    // cells whose joint is above
    pub above: u64,
    // contents that name a yarn
    pub yarns: u64,
    // contents that are nothing
    pub nothings: u64,
    // contents that name a cell which was named before, or the first cell
    pub ties: u64,
}

// The cells read so far.
#[derive(Clone, Copy, Default)]
pub(crate) struct Tally {
    // what is in them
    pub(crate) counts: Summary,
    // the greatest cell number that was named so far
    pub(crate) greatest: u32,
}

impl Tally {
    fn note_content(&mut self, content: Content)
        requires { Upto (2 ^ 63) self.old }
        ensures { self.new ≡ content_noted self.old content }
    {
        match content {
            Content::Nothing => self.counts.nothings += 1,
            Content::Yarn(_) => self.counts.yarns += 1,
            Content::Cell(k) if k <= self.greatest => self.counts.ties += 1,
            Content::Cell(k) => self.greatest = k,
        }
    }

    // Notes one cell more.
    pub(crate) fn note(&mut self, cell: PatternCell)
        requires { Upto (2 ^ 31) self.old }
        ensures { self.new ≡ cell_noted self.old cell }
    {
        self.counts.cells += 1;
        if cell.joint == Joint::Above {
            self.counts.above += 1;
        }
        self.note_content(cell.left);
        self.note_content(cell.right);
    }
}
