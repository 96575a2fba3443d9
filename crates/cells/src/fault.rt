//! What a heap refuses, and the checks that every heap makes.
ghost use Rattle.std.specs.Prelude.{◌≡◌};
ghost use Rattle.cells.specs.Fault.{answer, fault_number, grey_fault, index_fault, or_else, content_fault, write_fault};

use crate::cell::LinkRecord;
use crate::content::Content;

// A refused call of a heap changes nothing.
#[derive(Clone, Copy, Debug, PartialEq)]
pub enum HeapFault {
    // a yarn is 4,096 or greater
    YarnRange,
    // the index, or a content that is a cell, is not below the size
    CellRange,
    // an exchange is tried although some cell is grey
    GreyLeft,
}

impl HeapFault {
    // The fault's number in the table of refusals.
    // Stays: a number of that table, for whoever prints it; nothing is decided by it.
    pub fn number(&self) -> u8
        ensures { result ≡ fault_number self.now }
    {
        match *self {
            HeapFault::YarnRange => 5,
            HeapFault::CellRange => 18,
            HeapFault::GreyLeft => 19,
        }
    }
}

// Is there a cell of this number?
pub fn check_index(size: u32, index: u32) -> Result<(), HeapFault>
    ensures { result ≡ answer (index_fault size index) tt }
{
    if index < size {
        Ok(())
    } else {
        Err(HeapFault::CellRange)
    }
}

// May a cell hold these two contents? The left one is asked first.
fn check_contents(size: u32, left: Content, right: Content) -> Result<(), HeapFault>
    ensures { result ≡ answer (or_else (content_fault size left) (content_fault size right)) tt }
{
    left.check(size)?;
    right.check(size)
}

// What a write checks: the index, then left, then right.
pub fn check_write(size: u32, index: u32, links: LinkRecord) -> Result<(), HeapFault>
    ensures { result ≡ answer (write_fault size index links.left links.right) tt }
{
    check_index(size, index)?;
    check_contents(size, links.left, links.right)
}

// What an exchange checks, by the first grey cell of all.
pub fn check_exchange(first: Option<u32>) -> Result<(), HeapFault>
    ensures { result ≡ answer (grey_fault first) tt }
{
    match first {
        None => Ok(()),
        Some(_) => Err(HeapFault::GreyLeft),
    }
}
