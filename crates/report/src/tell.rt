//! The lines that tell what is in a text.
ghost use Rattle.std.specs.Prelude.{◌≡◌, IfOk, Some, string_bytes};
ghost use Rattle.report.specs.Summary.{fault_text, reported, summary_text};

use crate::counting::survey;
use crate::tally::Summary;
use archive::FileFault;
use std::alloc::{AllocError, Global};
use std::fmt;

// The counts, each in a line of a word, a tab and the number.
impl fmt::Display for Summary {
    ghost output = { λ s. Some (summary_text s) };

    fn fmt<W: fmt::Write>(&self, f: &mut fmt::Formatter<W>) -> fmt::Result {
        let Summary {
            cells,
            above,
            yarns,
            nothings,
            ties,
        } = *self;
        write!(
            f,
            "cells\t{cells}\nabove\t{above}\nyarns\t{yarns}\nnothings\t{nothings}\nties\t{ties}\n"
        )
    }
}

// The line that tells a fault: its number and the line where it is.
#[derive(Clone, Copy)]
struct FaultLine(FileFault);

impl fmt::Display for FaultLine {
    ghost output = { λ told. Some (fault_text told.0) };

    fn fmt<W: fmt::Write>(&self, f: &mut fmt::Formatter<W>) -> fmt::Result {
        let number = self.0.number();
        let line = self.0.line();
        write!(f, "fault\t{number}\t{line}\n")
    }
}

// What is in the pattern whose text the bytes are, as lines of a word, a tab and a number; or the first fault.
pub fn report(heap: Global, text: &[u8]) -> Result<String, AllocError>
    ensures { IfOk result (λ t. string_bytes t ≡ reported text.now) }
{
    match survey(text) {
        Ok(summary) => summary.to_string(heap),
        Err(fault) => FaultLine(fault).to_string(heap),
    }
}
