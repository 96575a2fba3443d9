//! What can be wrong with a line taken by itself. Every fault carries its line, counted from 1.
ghost use Rattle.std.specs.Prelude.{◌≡◌};
ghost use Rattle.lines.specs.Fault.{line_layer, line_line, line_number};

// What is wrong with a line taken by itself.
#[derive(Clone, Copy, Debug, PartialEq)]
pub enum LineFault {
    // the line has not the form that is due, or an end line names another count
    Form(usize),
    // a count, a yarn or a cell number is out of range
    Range(usize),
}

// Which reader found a fault.
#[derive(Clone, Copy, Debug, PartialEq)]
pub enum Layer {
    Line,
    File,
}

impl LineFault {
    pub fn layer(&self) -> Layer
        ensures { result ≡ line_layer self.now }
    {
        Layer::Line
    }

    // The fault's number in the table of refusals.
    // Stays: a number of that table, for whoever prints it; nothing is decided by it.
    pub fn number(&self) -> u8
        ensures { result ≡ line_number self.now }
    {
        match *self {
            LineFault::Form(_) => 9,
            LineFault::Range(_) => 11,
        }
    }

    pub fn line(&self) -> usize
        ensures { result ≡ line_line self.now }
    {
        match *self {
            LineFault::Form(line) | LineFault::Range(line) => line,
        }
    }
}
