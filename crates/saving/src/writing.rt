//! The text of a numbered pattern: its lines are made from the two tables.
ghost use Rattle.std.specs.Prelude.{◌≡◌, ◌<◌, ◌^◌, length};
ghost use Rattle.text.specs.Buffer.{length_put, put};
ghost use Rattle.text.specs.Writer.{PutsInRoom};
ghost use Rattle.saving.specs.Numbered.{numbered_cells, numbered_line, numbered_text, tables_kept};

use cells::{Heap, look};
use lines::{
    PatternCell, cell_length, end_length, header_length, write_cell, write_end, write_header,
};
use numbering::{entry, renamed_line};
use text::Writer;

// A pattern of a heap whose cells are numbered: the two tables of its walk, and how many cells it has.
// Stays: slices with a count beside them, as in the walk that filled them.
#[derive(Drop)]
pub struct Numbered<'a, H> {
    pub heap: &'a H,
    pub numbers: &'a [u16],
    pub order: &'a [u16],
    pub count: u32,
}

impl<H: Heap> Numbered<'_, H> {
    // The line of the cell with this number.
    #[tactic(auto, using(crate::proofs::Renamed::line_renamed))]
    fn line(&self, number: u32) -> PatternCell
        ensures { H.sound self.now.heap.now → result ≡ numbered_line (H.meaning self.now.heap.now) (tables_kept self.now) number }
    {
        let links = look(self.heap, entry(self.order, number)).links;
        renamed_line(links.into(), self.numbers)
    }

    // How many bytes the lines are written in.
    fn cells_length(&self) -> usize
        ensures bytes { H.sound self.now.heap.now → result ≡ length (numbered_cells (H.meaning self.now.heap.now) (tables_kept self.now)) }
        ensures few { result < 2 ^ 60 }
    {
        (0..self.count)
            .map(|number| cell_length(self.line(number)))
            .sum()
    }

    // How many bytes the text is written in.
    #[tactic(auto, using(crate::proofs::Texts::text_length))]
    fn length(&self) -> usize
        ensures { H.sound self.now.heap.now → result ≡ length (numbered_text (H.meaning self.now.heap.now) (tables_kept self.now)) }
    {
        header_length(self.count) + self.cells_length() + end_length(self.count)
    }

    // Writes the lines where there is room for them.
    // Stays: a `for` over the numbers, since a proof knows nothing of a buffer that a chain's closure writes, and that the
    // order has an entry for each number is known on a sound heap alone.
    fn put_cells(&self, writer: &mut Writer)
        ensures { H.sound self.now.heap.now → PutsInRoom writer.old (numbered_cells (H.meaning self.now.heap.now) (tables_kept self.now)) writer.new }
    {
        for number in 0..self.count {
            write_cell(writer, self.line(number));
        }
    }

    // Writes the text where there is room for it.
    fn put(&self, writer: &mut Writer)
        ensures { H.sound self.now.heap.now → PutsInRoom writer.old (numbered_text (H.meaning self.now.heap.now) (tables_kept self.now)) writer.new }
    {
        write_header(writer, self.count);
        self.put_cells(writer);
        write_end(writer, self.count);
    }

    // Writes the text, and answers its length; nothing where the buffer is shorter.
    // Stays: a length, a test of the room and the writing, for the reason at `Writer::number` of `text`.
    pub fn write(&self, buffer: &mut [u8]) -> Option<usize>
        ensures answer { H.sound self.now.heap.now → result ≡ length_put buffer.old 0 (numbered_text (H.meaning self.now.heap.now) (tables_kept self.now)) }
        ensures after { H.sound self.now.heap.now → buffer.new ≡ put buffer.old 0 (numbered_text (H.meaning self.now.heap.now) (tables_kept self.now)) }
    {
        let length = self.length();
        let mut writer = Writer { buffer, at: 0 };
        if !writer.has_room(length) {
            return None;
        }
        self.put(&mut writer);
        Some(length)
    }
}
