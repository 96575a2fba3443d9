//! The worked examples, each shown by computing with the definitions.
ghost use Rattle.std.specs.Prelude.{◌≡◌};
ghost use Rattle.model.specs.Calls.{after_all, answer, answers};
ghost use Rattle.model.specs.Examples.{first_six, last_four, one_cell, saved_bytes, seventh, three_cells};

use crate::answer::Answer;
use crate::fault::StoreFault;

// What the first six calls on three cells and two holds answer.
#[tactic(auto, using(crate::proofs::Computed::first_six_lem))]
pub fn first_answers() -> [Answer; 6]
    ensures { result ≡ answers first_six three_cells }
{
    [
        Answer::Done(Ok(())),
        Answer::Took(Ok((0, 2))),
        Answer::Took(Ok((1, 3))),
        Answer::Done(Ok(())),
        Answer::Took(Ok((2, 6))),
        Answer::Took(Ok((1, 2))),
    ]
}

// What the save after them answers,
#[tactic(auto, using(crate::proofs::Computed::the_seventh))]
pub fn saved_answer() -> Answer
    ensures { result ≡ answer seventh (after_all first_six three_cells) }
{
    Answer::Saved(Ok((2, 43)))
}

// .. and the 43 bytes that it writes.
#[tactic(auto, using(crate::proofs::Computed::saved_bytes_lem))]
pub fn saved_text() -> [u8; 43]
    ensures { result ≡ saved_bytes }
{
    *b"pattern\t1\t2\ncell\tb\tc1\tc1\ncell\tb\ty5\t-\nend\t2\n"
}

// What the four calls on one cell and one hold answer.
#[tactic(auto, using(crate::proofs::Computed::last_four_lem))]
pub fn last_answers() -> [Answer; 4]
    ensures { result ≡ answers last_four one_cell }
{
    [
        Answer::Took(Ok((0, 3))),
        Answer::Took(Err(StoreFault::NoCell(9))),
        Answer::Done(Ok(())),
        Answer::Took(Ok((0, 4))),
    ]
}
