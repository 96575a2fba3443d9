//! What a store refuses.
ghost use Rattle.std.specs.Prelude.{◌≡◌};
ghost use Rattle.model.specs.Fault.{load_layer, load_line, load_number, open_number, store_number};
ghost use Rattle.model.specs.declared.fault.LoadFault.TheVariants.{OfFile, OfStore};
ghost use Rattle.model.specs.declared.fault.StoreFault.TheVariants.{NoJoint};

use archive::{FileFault, Layer};
use cells::UnknownJoint;

// What the check before opening finds.
#[derive(Clone, Copy, Debug, PartialEq)]
pub enum OpenFault {
    // the heap has size 0
    NoCells,
    // the number of holds is not 1 to 96
    HoldCount,
}

// Why a call of a store is refused. All but `NoCell` and `ShortBuffer` leave everything as it was.
#[derive(Clone, Copy, Debug, PartialEq)]
pub enum StoreFault {
    // there is no hold of this number
    NoHold,
    // the hold contains no cell
    NoCellHeld,
    // a yarn is 4,096 or greater
    YarnRange,
    // the byte is no joint
    NoJoint,
    // no cell came free; so many units were run, and they remain done
    NoCell(u32),
    // the turn comes too early: marking or sweeping has not ended
    TooEarly,
    // fewer cells are free than the text has
    FewCells,
    // the text does not fit into the buffer; the tables are filled
    ShortBuffer,
    // a table has too few entries
    ShortTable,
}

// Where a fault was found: in the text, by the reader that is named, or in the store that was to load it.
#[derive(Clone, Copy, Debug, PartialEq)]
pub enum LoadLayer {
    Text(Layer),
    Store,
}

// Why a text is not loaded: it is at fault, or the store refuses it.
#[derive(Clone, Copy, Debug, PartialEq)]
pub enum LoadFault {
    OfFile(FileFault),
    OfStore(StoreFault),
}

impl OpenFault {
    // The fault's number in the table of refusals.
    // Stays: a number of that table, for whoever prints it; here and in the other two enums nothing is decided by it.
    pub fn number(&self) -> u8
        ensures { result ≡ open_number self.now }
    {
        match *self {
            OpenFault::NoCells => 1,
            OpenFault::HoldCount => 2,
        }
    }
}

impl StoreFault {
    // The fault's number in the table of refusals.
    pub fn number(&self) -> u8
        ensures { result ≡ store_number self.now }
    {
        match *self {
            StoreFault::NoHold => 3,
            StoreFault::NoCellHeld => 4,
            StoreFault::YarnRange => 5,
            StoreFault::NoJoint => 6,
            StoreFault::NoCell(_) => 7,
            StoreFault::TooEarly => 8,
            StoreFault::FewCells => 15,
            StoreFault::ShortBuffer => 16,
            StoreFault::ShortTable => 17,
        }
    }
}

impl From<UnknownJoint> for StoreFault {
    ghost from_gives = { λ e r. r ≡ NoJoint };

    fn from(_e: UnknownJoint) -> StoreFault {
        Self::NoJoint
    }
}

impl From<FileFault> for LoadFault {
    ghost from_gives = { λ e r. r ≡ OfFile e };

    fn from(e: FileFault) -> LoadFault {
        LoadFault::OfFile(e)
    }
}

impl From<StoreFault> for LoadFault {
    ghost from_gives = { λ e r. r ≡ OfStore e };

    fn from(e: StoreFault) -> LoadFault {
        LoadFault::OfStore(e)
    }
}

impl LoadFault {
    // Where the fault was found.
    pub fn layer(&self) -> LoadLayer
        ensures { result ≡ load_layer self.now }
    {
        match *self {
            LoadFault::OfFile(fault) => LoadLayer::Text(fault.layer()),
            LoadFault::OfStore(_) => LoadLayer::Store,
        }
    }

    // The fault's number in the table of refusals.
    pub fn number(&self) -> u8
        ensures { result ≡ load_number self.now }
    {
        match *self {
            LoadFault::OfFile(fault) => fault.number(),
            LoadFault::OfStore(fault) => fault.number(),
        }
    }

    // Its line, counted from 1; 0 where the store refuses.
    // Stays: what a load tells has a line in any case, and of a store's refusal that is line 0.
    pub fn line(&self) -> usize
        ensures { result ≡ load_line self.now }
    {
        match *self {
            LoadFault::OfFile(fault) => fault.line(),
            LoadFault::OfStore(_) => 0,
        }
    }
}
