//! A cell as a heap keeps it: an object of two fields, with one bit that says whether it is allocated
//! and a colour for each of the two generations that are collected at the same time.
ghost use Rattle.std.specs.Prelude.{◌≡◌};
ghost use Rattle.cells.specs.Front.{size_for};
ghost use Rattle.cells.specs.Record.{as_mark, as_sweep, content_on, exchanged_cell, grey_weight, is_grey, new_cell, new_links, painted_cell, relinked_cell};

use crate::content::{Content, Joint, MOST_CELLS};

// One of the two fields of a cell.
#[derive(Clone, Copy)]
pub enum Side {
    Left,
    Right,
}

// Is the cell allocated? A free cell is on the free list, a used one was given away.
#[derive(Clone, Copy, Debug, PartialEq)]
pub enum Tag {
    Free,
    Used,
}

// The colour that the marker and the shading write. White: not reached yet. Grey: reached, its contents
// still to be looked at. Black: reached, and its contents too.
#[derive(Clone, Copy, Debug, PartialEq)]
pub enum MarkColour {
    White,
    Grey,
    Black,
}

impl MarkColour {
    pub fn is_grey(self) -> bool
        ensures { result ≡ is_grey self }
    {
        self == MarkColour::Grey
    }

    // What a cell of this colour adds to the number of grey cells.
    pub fn grey_weight(self) -> u32
        ensures { result ≡ grey_weight self }
    {
        u32::from(self.is_grey())
    }
}

// The colour that the sweeper reads and whitens: what the marking before the present one left. White: to
// be freed if used. Black: to be kept. Marking has ended before a colour is swept, so no grey is left.
#[derive(Clone, Copy, Debug, PartialEq)]
pub enum SweepColour {
    White,
    Black,
}

// The mark colour that a sweep colour becomes at an exchange.
impl From<SweepColour> for MarkColour {
    ghost from_gives = { λ sweep mark. mark ≡ as_mark sweep };

    fn from(sweep: SweepColour) -> MarkColour {
        match sweep {
            SweepColour::White => MarkColour::White,
            SweepColour::Black => MarkColour::Black,
        }
    }
}

// The sweep colour that a mark colour becomes at an exchange. Grey would become white; no heap exchanges a grey cell.
impl From<MarkColour> for SweepColour {
    ghost from_gives = { λ mark sweep. sweep ≡ as_sweep mark };

    fn from(mark: MarkColour) -> SweepColour {
        match mark {
            MarkColour::Black => SweepColour::Black,
            _ => SweepColour::White,
        }
    }
}

// Which colour of a cell is painted, and how. A grey sweep colour cannot be written down.
#[derive(Clone, Copy)]
pub enum Colour {
    Mark(MarkColour),
    Sweep(SweepColour),
}

// A cell without its colours: what a write sets.
#[derive(Clone, Copy, Debug, PartialEq)]
pub struct LinkRecord {
    pub joint: Joint,
    pub left: Content,
    pub right: Content,
    pub tag: Tag,
}

impl LinkRecord {
    // Of a new cell: free and empty.
    pub fn new() -> LinkRecord
        ensures { result ≡ new_links }
    {
        LinkRecord {
            joint: Joint::Beside,
            left: Content::Nothing,
            right: Content::Nothing,
            tag: Tag::Free,
        }
    }
}

// All of a cell.
#[derive(Clone, Copy, Debug, PartialEq)]
pub struct CellRecord {
    pub links: LinkRecord,
    pub mark: MarkColour,
    pub sweep: SweepColour,
}

impl CellRecord {
    // A cell of a new heap: free and empty, white for the marker and for the sweeper.
    pub fn new() -> CellRecord
        ensures { result ≡ new_cell }
    {
        CellRecord {
            links: LinkRecord::new(),
            mark: MarkColour::White,
            sweep: SweepColour::White,
        }
    }

    // What the cell contains on a side.
    pub fn content_on(&self, side: Side) -> Content
        ensures { result ≡ content_on self.now side }
    {
        match side {
            Side::Left => self.links.left,
            Side::Right => self.links.right,
        }
    }

    // The cell with another joint, other contents and another tag, and the colours that it has.
    pub fn relinked(self, links: LinkRecord) -> CellRecord
        ensures { result ≡ relinked_cell self links }
    {
        CellRecord { links, ..self }
    }

    // The cell with the named colour set.
    pub fn repainted(self, colour: Colour) -> CellRecord
        ensures { result ≡ painted_cell self colour }
    {
        match colour {
            Colour::Mark(mark) => CellRecord { mark, ..self },
            Colour::Sweep(sweep) => CellRecord { sweep, ..self },
        }
    }

    // The cell with its two colours exchanged.
    pub fn exchanged(self) -> CellRecord
        ensures { result ≡ exchanged_cell self }
    {
        CellRecord {
            mark: self.sweep.into(),
            sweep: self.mark.into(),
            ..self
        }
    }
}

// How many of so many records are cells.
pub fn size_for(records: usize) -> u32
    ensures { result ≡ size_for records }
{
    records.min(MOST_CELLS as usize) as u32
}
