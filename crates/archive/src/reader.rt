//! A reader with a place in a text, which judges each line as it comes to it.
ghost use Rattle.std.specs.Prelude.{◌≤◌};

use crate::due::{content_fits, count_fits, line_at, line_goes_on};
use crate::fault::FileFault;
use lines::{LineFault, PatternCell};

// A place in a text: behind the header and the lines of the cells before `next`.
// Stays: `place_of` in the clauses and no `impl Model`, which is not had for a `Copy` struct with a lifetime.
#[derive(Clone, Copy)]
pub struct Reader<'a> {
    // how many cells the header announces
    count: u32,
    // the cell whose line is due
    next: u32,
    // the greatest cell number that was named so far
    greatest: u32,
    // the text from the due line on
    rest: &'a [u8],
    ghost some: { 1 ≤ count },
    ghost few: { count ≤ 16384 },
    ghost within: { next ≤ count },
}

impl<'a> Reader<'a> {
    ghost use Rattle.std.specs.Prelude.{◌≡◌, ◌<◌};
    ghost use Rattle.archive.specs.Answers.{cell_answer, open_answer};
    ghost use Rattle.archive.specs.Reading.{cell_due, finished, line_due, next_cell, opened, place_after, place_of};

    // A reader behind the header of a text.
    pub fn open(text: &'a [u8]) -> Result<Reader<'a>, FileFault>
        ensures { open_answer result ≡ opened text.now }
    {
        let (line, rest) = line_at(text, 1)?;
        let (version, count) = line.header().ok_or(LineFault::Form(1))?;
        if version != 1 {
            return Err(FileFault::Version(1));
        }
        if !count_fits(count) {
            return Err(LineFault::Range(1).into());
        }
        Ok(Reader {
            count,
            next: 0,
            greatest: 0,
            rest,
        })
    }

    // The line that is due, counted from 1.
    fn line_due(&self) -> usize
        ensures { result ≡ line_due (place_of self.now) }
    {
        // Stays: `as`, since `usize` has no `From<u32>`.
        self.next as usize + 2
    }

    // The cell that is due, and the place behind its line.
    fn cell_due(&self) -> Result<(PatternCell, Reader<'a>), FileFault>
        requires { self.now.next < self.now.count }
        ensures { cell_answer result ≡ cell_due (place_of self.now) }
    {
        let at = self.line_due();
        let (line, rest) = line_at(self.rest, at)?;
        let cell = line.cell().ok_or(LineFault::Form(at))?;
        if !(content_fits(self.count, cell.left) && content_fits(self.count, cell.right)) {
            return Err(LineFault::Range(at).into());
        }
        let greatest = line_goes_on(self.next, self.greatest, cell).ok_or(FileFault::Numbering(
            at,
        ))?;
        Ok((
            cell,
            Reader {
                count: self.count,
                next: self.next + 1,
                greatest,
                rest,
            },
        ))
    }

    // The next cell, or none behind the last; the place stays where a line is refused.
    // Stays: no `Iterator`, since a refused line stays due, and its fault would come again without end.
    pub fn next_cell(&mut self) -> Result<Option<PatternCell>, FileFault>
        ensures answer { result ≡ next_cell (place_of self.old) }
        ensures place { place_of self.new ≡ place_after (place_of self.old) }
    {
        if self.next >= self.count {
            return Ok(None);
        }
        let (cell, reader) = self.cell_due()?;
        *self = reader;
        Ok(Some(cell))
    }

    // Judges that the end line is due here and ends the text; answers the count.
    pub fn finish(self) -> Result<u32, FileFault>
        ensures { result ≡ finished (place_of self.entry) }
    {
        let at = self.line_due();
        let (line, rest) = line_at(self.rest, at)?;
        let count = line.end().ok_or(LineFault::Form(at))?;
        if count != self.count {
            return Err(LineFault::Form(at).into());
        }
        if !rest.is_empty() {
            return Err(FileFault::Trailing(at + 1));
        }
        Ok(self.count)
    }
}
