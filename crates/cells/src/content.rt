//! What a cell can hold, and how its two contents are joined.
ghost use Rattle.std.specs.Prelude.{◌≡◌};
ghost use Rattle.cells.specs.Fault.{answer, content_fault};
ghost use Rattle.cells.specs.Record.{cell_named, joint_by_letter, letter_of};

use crate::fault::{HeapFault, check_index};

// The highest number of a yarn.
pub const LAST_YARN: u32 = 4095;

// No store and no pattern has more cells.
pub const MOST_CELLS: u32 = 16384;

// What a hold (a root) or one side of a cell (an object of two fields) contains: nothing, a yarn (an atom), or
// a cell (a pointer, by number). The numbers are as they came: a yarn above the last one and a cell that does not
// exist can be written down, so that whoever is handed one can refuse it.
#[derive(Clone, Copy, Debug, PartialEq)]
pub enum Content {
    Nothing,
    Yarn(u32),
    Cell(u32),
}

impl Content {
    // The cell that it names, if it names one.
    pub fn cell(self) -> Option<u32>
        ensures { result ≡ cell_named self }
    {
        match self {
            Content::Cell(cell) => Some(cell),
            _ => None,
        }
    }

    // May a cell among `size` cells hold this content?
    pub fn check(self, size: u32) -> Result<(), HeapFault>
        ensures { result ≡ answer (content_fault size self) tt }
    {
        match self {
            Content::Nothing => Ok(()),
            Content::Yarn(yarn) => {
                if yarn <= LAST_YARN {
                    Ok(())
                } else {
                    Err(HeapFault::YarnRange)
                }
            }
            Content::Cell(cell) => check_index(size, cell),
        }
    }
}

// How the two contents of a cell lie to each other in the carpet: a label of one bit, which no collector looks at.
#[derive(Clone, Copy, Debug, PartialEq)]
pub enum Joint {
    Beside,
    Above,
}

// The joint's letter: `b` or `a`.
impl From<Joint> for u8 {
    ghost from_gives = { λ joint letter. letter ≡ letter_of joint };

    fn from(joint: Joint) -> u8 {
        match joint {
            Joint::Beside => b'b',
            Joint::Above => b'a',
        }
    }
}

// A byte that is no joint's letter.
#[derive(Clone, Copy, Debug, PartialEq)]
pub struct UnknownJoint {
    pub letter: u8,
}

// The joint of a letter.
impl TryFrom<u8> for Joint {
    type Error = UnknownJoint;

    ghost try_from_gives = { λ letter r. r ≡ joint_by_letter letter };

    fn try_from(letter: u8) -> Result<Self, UnknownJoint> {
        match letter {
            b'b' => Ok(Joint::Beside),
            b'a' => Ok(Joint::Above),
            _ => Err(UnknownJoint { letter }),
        }
    }
}
