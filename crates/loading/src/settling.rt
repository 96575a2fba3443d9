//! The second pass: the lines of a text become the cells that a table names.
ghost use Rattle.std.specs.Prelude.{◌≡◌, ℕ, ◌<◌, List, length, take, Ok, slice_index};
ghost use Rattle.archive.specs.Pattern.{Pattern};
ghost use Rattle.archive.specs.Reading.{next_cell, opened, pattern_in, place_after, place_of};
ghost use Rattle.numbering.specs.Walk.{renamed_line};
ghost use Rattle.loading.specs.Settle.{Suits, line_given, settled_cells};
ghost use Rattle.steps.specs.Steps.{LineFits, cells_used};

use archive::Reader;
use cells::Heap;
use lines::PatternCell;
use numbering::renamed_line;
use steps::make_used;

// Makes a cell a used one with the joint and the contents of the line, in which the table has a cell for each file cell.
// Stays: `places` and `sweep_place` go side by side, since a struct of the two would only be made by `settle`, of its
// own arguments, and no fact holds of them together.
fn plant<H: Heap>(heap: &mut H, cell: u32, line: PatternCell, places: &[u16], sweep_place: u32)
    ensures after { H.sound heap.old → cell < (H.meaning heap.old).size → LineFits (H.meaning heap.old).size (renamed_line (slice_index places.now) line) → H.meaning heap.new ≡ cells_used (H.meaning heap.old) cell (renamed_line (slice_index places.now) line) sweep_place }
    ensures kept { H.sound heap.old → H.sound heap.new }
{
    make_used(heap, cell, renamed_line(line, places), sweep_place);
}

// The next line of the text; none behind the last one, nor where the text is refused.
fn next_line<'a>(reader: &mut Reader<'a>) -> Option<PatternCell>
    ensures answer { result ≡ line_given (next_cell (place_of reader.old)) }
    ensures place { place_of reader.new ≡ place_after (place_of reader.old) }
{
    reader.next_cell().ok().flatten()
}

// Makes the cells of the lines that the reader of a text gives, in the places that the table names, first to first.
fn settle_lines<'a, H: Heap>(heap: &mut H, mut reader: Reader<'a>, places: &[u16], sweep_place: u32)
    ensures after { (text : List ℕ) (pattern : Pattern) → H.sound heap.old → Ok (place_of reader.entry) ≡ opened text → pattern_in text ≡ Ok pattern → Suits (H.meaning heap.old).size places.now pattern → H.meaning heap.new ≡ settled_cells (H.meaning heap.old) sweep_place (take (length pattern) places.now) pattern }
    ensures kept { H.sound heap.old → H.sound heap.new }
{
    for place in places {
        let Some(line) = next_line(&mut reader) else {
            return;
        };
        plant(heap, u32::from(*place), line, places, sweep_place);
    }
}

// Makes the pattern of a text in the cells that the table names: file cell k becomes cell places[k].
pub fn settle<H: Heap>(heap: &mut H, text: &[u8], places: &[u16], sweep_place: u32)
    ensures after { (pattern : Pattern) → H.sound heap.old → pattern_in text.now ≡ Ok pattern → Suits (H.meaning heap.old).size places.now pattern → H.meaning heap.new ≡ settled_cells (H.meaning heap.old) sweep_place (take (length pattern) places.now) pattern }
    ensures kept { H.sound heap.old → H.sound heap.new }
{
    if let Ok(reader) = Reader::open(text) {
        settle_lines(heap, reader, places, sweep_place);
    }
}
