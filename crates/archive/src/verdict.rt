//! The verdict on a whole text.
ghost use Rattle.std.specs.Prelude.{◌≡◌, ℕ, ◌↔◌, Ok};
ghost use Rattle.archive.specs.Answers.{open_answer};
ghost use Rattle.archive.specs.Pattern.{OnePattern, WritesSome};
ghost use Rattle.archive.specs.Reading.{behind_cells, judged, place_of};

use crate::fault::FileFault;
use crate::reader::Reader;

// The place behind the line of the last cell.
fn pass_cells<'a>(mut reader: Reader<'a>) -> Result<Reader<'a>, FileFault>
    ensures { open_answer result ≡ behind_cells (place_of reader.entry) }
{
    while reader.next_cell()?.is_some() {}
    Ok(reader)
}

// Header, cells and end line, in this order.
// Stays: apart from `judge` by docs/DECISIONS.md, "Laws stand on thin public functions".
#[tactic(auto, using(crate::proofs::Whole::verdict_is))]
fn pass_text(text: &[u8]) -> Result<u32, FileFault>
    ensures { result ≡ judged text.now }
{
    pass_cells(Reader::open(text)?)?.finish()
}

// The verdict on any bytes: how many cells the pattern has whose text they are, or the first fault in the rules' order.
pub fn judge(text: &[u8]) -> Result<u32, FileFault>
    ensures verdict { result ≡ judged text.now }
    ensures accepted { (n : ℕ) → (result ≡ Ok n) ↔ WritesSome n text.now }
    ensures single { OnePattern text.now }
{
    pass_text(text)
}
