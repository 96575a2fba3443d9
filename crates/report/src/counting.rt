//! The counts of the pattern that a text is.
ghost use Rattle.std.specs.Prelude.{◌≡◌, Ok};
ghost use Rattle.archive.specs.Pattern.{Pattern, Writes};
ghost use Rattle.archive.specs.Reading.{place_of};
ghost use Rattle.report.specs.Summary.{summary_of, surveyed};
ghost use Rattle.report.specs.Survey.{tally_answer, tally_from};

use crate::tally::{Summary, Tally};
use archive::{FileFault, Reader};

// The tally of the cells from the reader's place on, and the place behind them.
fn tally_cells<'a>(mut reader: Reader<'a>) -> Result<(Tally, Reader<'a>), FileFault>
    ensures { tally_answer result ≡ tally_from (place_of reader.entry) }
{
    let mut tally = Tally::default();
    while let Some(cell) = reader.next_cell()? {
        tally.note(cell);
    }
    Ok((tally, reader))
}

// The counts of a whole text.
// Stays: apart from `survey` by docs/DECISIONS.md, "Laws stand on thin public functions".
#[tactic(auto, using(crate::proofs::Laws::survey_is))]
fn tally_text(text: &[u8]) -> Result<Summary, FileFault>
    ensures { result ≡ surveyed text.now }
{
    let (tally, end) = tally_cells(Reader::open(text)?)?;
    end.finish()?;
    Ok(tally.counts)
}

// What is in the pattern whose text the bytes are, or the first fault.
pub fn survey(text: &[u8]) -> Result<Summary, FileFault>
    ensures summary { result ≡ surveyed text.now }
    ensures pattern { (p : Pattern) → Writes p text.now → result ≡ Ok (summary_of p) }
{
    tally_text(text)
}
