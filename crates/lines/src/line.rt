//! One line of an archive text, as fields that are parts of the text.
ghost use Rattle.std.specs.Prelude.{◌≡◌, ◌↔◌, Some};
ghost use Rattle.text.specs.Cut.{parts_of};
ghost use Rattle.lines.specs.Line.{Fields, IsLine, cell_in, end_in, fields_in, header_in, line_in, two_in};

use text::cut_at;

const TAB: u8 = 9;

// A line that is read. Its fields are lent from the text and may be kept as long as the text.
#[derive(Clone, Copy)]
pub enum Line<'a> {
    Header {
        version: &'a [u8],
        count: &'a [u8],
    },
    Cell {
        joint: &'a [u8],
        left: &'a [u8],
        right: &'a [u8],
    },
    End {
        count: &'a [u8],
    },
}

// The two fields of a text that has just two.
fn two_fields<'a>(text: &'a [u8]) -> Option<(&'a [u8], &'a [u8])>
    ensures { parts_of result ≡ two_in text.now }
{
    let (first, second) = cut_at(text, TAB)?;
    if cut_at(second, TAB).is_some() {
        return None;
    }
    Some((first, second))
}

fn header_fields<'a>(text: &'a [u8]) -> Option<Line<'a>>
    ensures { fields_in result ≡ header_in text.now }
{
    let (version, count) = two_fields(text)?;
    Some(Line::Header { version, count })
}

fn cell_fields<'a>(text: &'a [u8]) -> Option<Line<'a>>
    ensures { fields_in result ≡ cell_in text.now }
{
    let (joint, contents) = cut_at(text, TAB)?;
    let (left, right) = two_fields(contents)?;
    Some(Line::Cell { joint, left, right })
}

fn end_fields<'a>(text: &'a [u8]) -> Option<Line<'a>>
    ensures { fields_in result ≡ end_in text.now }
{
    if cut_at(text, TAB).is_some() {
        return None;
    }
    Some(Line::End { count: text })
}

// The line by its first field and the number of its fields.
// Stays: apart from `Line::read` by docs/DECISIONS.md, "Laws stand on thin public functions".
fn by_word<'a>(body: &'a [u8]) -> Option<Line<'a>>
    ensures { fields_in result ≡ line_in body.now }
{
    let (word, fields) = cut_at(body, TAB)?;
    match word {
        b"pattern" => header_fields(fields),
        b"cell" => cell_fields(fields),
        b"end" => end_fields(fields),
        _ => None,
    }
}

impl<'a> Line<'a> {
    // The line that the bytes before a line end are; none where they have no line's form.
    pub fn read(body: &'a [u8]) -> Option<Line<'a>>
        ensures fields { fields_in result ≡ line_in body.now }
        ensures exact { (f : Fields) → (fields_in result ≡ Some f) ↔ IsLine body.now f }
    {
        by_word(body)
    }
}
