//! What is done to the table of holds.
ghost use Rattle.std.specs.Prelude.{◌≡◌, Ok, length, replicate, nat_lt, slice_index_or, slice_set};
ghost use Rattle.archive.specs.Reading.{unless};
ghost use Rattle.cells.specs.declared.content.Content.TheVariants.{Nothing};
ghost use Rattle.model.specs.declared.fault.StoreFault.TheVariants.{NoHold};
ghost use Rattle.model.specs.State.{clipped_holds};

use crate::table::{HoldTable, MOST_HOLDS};
use cells::Content;
use model::StoreFault;

impl HoldTable {
    // Nothing in every hold; their number is clipped to 1 to 96.
    pub(crate) fn new(asked: u32) -> HoldTable
        ensures contents { result.contents ≡ replicate 96 Nothing }
        ensures count { result.count ≡ clipped_holds asked }
    {
        HoldTable {
            contents: [Content::Nothing; MOST_HOLDS],
            count: asked.clamp(1, MOST_HOLDS as u32),
        }
    }

    // Refuses a number that no hold has.
    pub(crate) fn check(&self, hold: u32) -> Result<(), StoreFault>
        ensures { result ≡ unless (nat_lt hold self.now.count) NoHold (Ok tt) }
    {
        if hold < self.count {
            Ok(())
        } else {
            Err(StoreFault::NoHold)
        }
    }

    // The content of a hold.
    pub(crate) fn content(&self, hold: u32) -> Content
        ensures { result ≡ slice_index_or self.now.contents hold Nothing }
    {
        self.contents
            .get(hold as usize)
            .copied()
            .unwrap_or(Content::Nothing)
    }

    // Replaces the content of a hold.
    pub(crate) fn set(&mut self, hold: u32, content: Content)
        ensures contents { self.new.contents ≡ slice_set self.old.contents hold content }
        ensures count { self.new.count ≡ self.old.count }
    {
        // Stays: of `get_mut` at an array the check learns the length, and no element. `set_entry` of the crate saving
        // has the same lines for a slice; a function for both would need a crate below both, for three lines.
        let hold = hold as usize;
        if hold < self.contents.len() {
            self.contents[hold] = content;
        }
    }
}
