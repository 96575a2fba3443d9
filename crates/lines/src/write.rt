//! The lines of an archive text, written into a lent buffer at a place: a whole line where it fits, else nothing.
ghost use Rattle.std.specs.Prelude.{◌≡◌, ◌+◌, ◌≤◌, length, decimal};
ghost use Rattle.text.specs.Buffer.{length_put};
ghost use Rattle.text.specs.Writer.{Puts, PutsInRoom};
ghost use Rattle.lines.specs.Text.{cell_fields, content_text, counted_text, end_fields, header_fields, joint_text, line_text};

use crate::cell::PatternCell;
use cells::{Content, Joint};
use text::{Writer, number_length};

// What stands in a header line before the count.
const HEADER: &[u8] = b"pattern\t1\t";

// What stands in an end line before the count.
const END: &[u8] = b"end\t";

// Writes a content where there is room for it.
// Stays: a Display gives no length beforehand, which the writers of lines ask first, and would need an impl of fmt::Write.
fn put_content(writer: &mut Writer, content: Content)
    ensures { PutsInRoom writer.old (content_text content) writer.new }
{
    match content {
        Content::Nothing => {
            writer.bytes(b"-");
        }
        Content::Yarn(y) => {
            writer.bytes(b"y");
            writer.number(y);
        }
        Content::Cell(k) => {
            writer.bytes(b"c");
            writer.number(k);
        }
    }
}

// How many bytes a content is written in.
fn content_length(content: Content) -> usize
    ensures bytes { result ≡ length (content_text content) }
    ensures few { result ≤ 11 }
{
    match content {
        Content::Nothing => 1,
        Content::Yarn(n) | Content::Cell(n) => 1 + number_length(n),
    }
}

// How many bytes a line of words and a count is written in.
#[tactic(auto, using(crate::proofs::Lengths::counted_length))]
fn counted_length(words: &[u8], count: u32) -> usize
    requires { length words.now ≤ 10 }
    ensures bytes { result ≡ length (counted_text words.now count) }
    ensures few { result ≤ 21 }
{
    words.len() + number_length(count) + 1
}

// Writes a line of words and a count where there is room for it.
fn put_counted(writer: &mut Writer, words: &[u8], count: u32)
    ensures { PutsInRoom writer.old (counted_text words.now count) writer.new }
{
    writer.bytes(words);
    writer.number(count);
    writer.bytes(b"\n");
}

// Writes a line of words and a count, and answers its length; nothing where the room is short.
// Stays: a length, a test of the room and the writing, for the reason at `Writer::number` of `text`; so in `write_cell`.
// Inlined: a header or an end line takes a seventh more instructions otherwise.
#[inline(always)]
fn write_counted(writer: &mut Writer, words: &[u8], count: u32) -> Option<usize>
    requires { length words.now ≤ 10 }
    ensures answer { result ≡ length_put writer.old.buffer.now writer.old.at (counted_text words.now count) }
    ensures puts { Puts writer.old (counted_text words.now count) writer.new }
{
    let length = counted_length(words, count);
    if !writer.has_room(length) {
        return None;
    }
    put_counted(writer, words, count);
    Some(length)
}

// Stays: the functions of a header line and of an end line are one call of a common one each; their promises name two lines.

// How many bytes the header line of `count` cells is written in.
pub fn header_length(count: u32) -> usize
    ensures bytes { result ≡ length (line_text (header_fields count)) }
    ensures few { result ≤ 21 }
{
    counted_length(HEADER, count)
}

// Writes the header line of `count` cells, and answers its length; nothing where the room is short.
pub fn write_header(writer: &mut Writer, count: u32) -> Option<usize>
    ensures answer { result ≡ length_put writer.old.buffer.now writer.old.at (line_text (header_fields count)) }
    ensures puts { Puts writer.old (line_text (header_fields count)) writer.new }
{
    write_counted(writer, HEADER, count)
}

// The text of a joint is its letter.
#[tactic(auto, using(crate::proofs::Lengths::joint_letter))]
fn joint_text(joint: Joint) -> [u8; 1]
    ensures { result ≡ joint_text joint }
{
    [u8::from(joint)]
}

// How many bytes the line of a cell is written in.
#[tactic(auto, using(crate::proofs::Lengths::cell_length))]
pub fn cell_length(cell: PatternCell) -> usize
    ensures bytes { result ≡ length (line_text (cell_fields cell)) }
    ensures few { result ≤ 31 }
{
    b"cell\tb\t\t\n".len() + content_length(cell.left) + content_length(cell.right)
}

// Writes the line of a cell where there is room for it.
fn put_cell(writer: &mut Writer, cell: PatternCell)
    ensures { PutsInRoom writer.old (line_text (cell_fields cell)) writer.new }
{
    writer.bytes(b"cell\t");
    writer.bytes(&joint_text(cell.joint));
    writer.bytes(b"\t");
    put_content(writer, cell.left);
    writer.bytes(b"\t");
    put_content(writer, cell.right);
    writer.bytes(b"\n");
}

// Writes the line of a cell, and answers its length; nothing where the room is short.
pub fn write_cell(writer: &mut Writer, cell: PatternCell) -> Option<usize>
    ensures answer { result ≡ length_put writer.old.buffer.now writer.old.at (line_text (cell_fields cell)) }
    ensures puts { Puts writer.old (line_text (cell_fields cell)) writer.new }
{
    let length = cell_length(cell);
    if !writer.has_room(length) {
        return None;
    }
    put_cell(writer, cell);
    Some(length)
}

// How many bytes the end line of `count` cells is written in.
pub fn end_length(count: u32) -> usize
    ensures bytes { result ≡ length (line_text (end_fields count)) }
    ensures few { result ≤ 21 }
{
    counted_length(END, count)
}

// Writes the end line of `count` cells, and answers its length; nothing where the room is short.
pub fn write_end(writer: &mut Writer, count: u32) -> Option<usize>
    ensures answer { result ≡ length_put writer.old.buffer.now writer.old.at (line_text (end_fields count)) }
    ensures puts { Puts writer.old (line_text (end_fields count)) writer.new }
{
    write_counted(writer, END, count)
}
