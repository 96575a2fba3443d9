//! What can be wrong with an archive text. Every fault carries its line, counted from 1.
ghost use Rattle.std.specs.Prelude.{◌≡◌};
ghost use Rattle.archive.specs.Fault.{file_layer, file_line, file_number};
ghost use Rattle.archive.specs.declared.fault.FileFault.TheVariants.{OfLine};

use lines::{Layer, LineFault};

// What is wrong with a file: a fault of one of its lines, or one of the file as a whole.
// Stays: no `Display`, which would be no plainer: only `report` tells a fault, in a line of its own form.
#[derive(Clone, Copy, Debug, PartialEq)]
pub enum FileFault {
    OfLine(LineFault),
    // another version
    Version(usize),
    // the numbering rule is broken
    Numbering(usize),
    // no further line end where a line is due
    NoLine(usize),
    // bytes follow the end line
    Trailing(usize),
}

impl From<LineFault> for FileFault {
    ghost from_gives = { λ e r. r ≡ OfLine e };

    fn from(e: LineFault) -> FileFault {
        FileFault::OfLine(e)
    }
}

impl FileFault {
    pub fn layer(&self) -> Layer
        ensures { result ≡ file_layer self.now }
    {
        match *self {
            FileFault::OfLine(fault) => fault.layer(),
            _ => Layer::File,
        }
    }

    // The fault's number in the table of refusals.
    // Stays: a number of that table, for whoever prints it; nothing is decided by it.
    pub fn number(&self) -> u8
        ensures { result ≡ file_number self.now }
    {
        match *self {
            FileFault::OfLine(fault) => fault.number(),
            FileFault::Version(_) => 10,
            FileFault::Numbering(_) => 12,
            FileFault::NoLine(_) => 13,
            FileFault::Trailing(_) => 14,
        }
    }

    pub fn line(&self) -> usize
        ensures { result ≡ file_line self.now }
    {
        match *self {
            FileFault::OfLine(fault) => fault.line(),
            FileFault::Version(line)
            | FileFault::Numbering(line)
            | FileFault::NoLine(line)
            | FileFault::Trailing(line) => line,
        }
    }
}
