//! Other numbers for the cells that contents name, by a table.
ghost use Rattle.std.specs.Prelude.{◌≡◌, slice_index};
ghost use Rattle.numbering.specs.Walk.{renamed, renamed_line};

use cells::Content;
use lines::PatternCell;

// What the table has for a number; 0 where it does not go so far.
// Stays: 0 for a number past the table and no Option, since each of its callers would take 0 for none, which is what
// `slice_index` in its promise says.
pub fn entry(table: &[u16], number: u32) -> u32
    ensures { result ≡ slice_index table.now number }
{
    table.get(number as usize).copied().map_or(0, u32::from)
}

// The content with the table's number for the cell that it names.
pub fn renamed(content: Content, table: &[u16]) -> Content
    ensures { result ≡ renamed (slice_index table.now) content }
{
    match content {
        Content::Cell(cell) => Content::Cell(entry(table, cell)),
        other => other,
    }
}

// The line with the table's number for each cell that it names.
pub fn renamed_line(line: PatternCell, table: &[u16]) -> PatternCell
    ensures { result ≡ renamed_line (slice_index table.now) line }
{
    PatternCell {
        left: renamed(line.left, table),
        right: renamed(line.right, table),
        ..line
    }
}
