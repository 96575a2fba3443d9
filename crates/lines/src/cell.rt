//! The fields of a line as values.
ghost use Rattle.std.specs.Prelude.{◌≡◌};
ghost use Rattle.lines.specs.Line.{fields_of};
ghost use Rattle.lines.specs.Values.{by_letter, cell_values, content_in, end_count, header_numbers, joint_in, linked_line, used_links};

use crate::line::Line;
use cells::{Content, Joint, LinkRecord, Tag};
use text::read_number;

// A cell of a pattern. The cells that its contents name go by their numbers in the file.
#[derive(Clone, Copy, Debug, PartialEq)]
pub struct PatternCell {
    pub joint: Joint,
    pub left: Content,
    pub right: Content,
}

// What the links of a cell say of the pattern; their tag is left out.
impl From<LinkRecord> for PatternCell {
    ghost from_gives = { λ links line. line ≡ linked_line links };

    fn from(links: LinkRecord) -> Self {
        PatternCell {
            joint: links.joint,
            left: links.left,
            right: links.right,
        }
    }
}

impl PatternCell {
    // The links of a used cell with this line.
    pub fn used(self) -> LinkRecord
        ensures { result ≡ used_links self }
    {
        LinkRecord {
            joint: self.joint,
            left: self.left,
            right: self.right,
            tag: Tag::Used,
        }
    }
}

fn read_joint(text: &[u8]) -> Option<Joint>
    ensures { result ≡ joint_in text.now }
{
    let [letter] = text else {
        return None;
    };
    Joint::try_from(*letter).ok()
}

// The content that a letter and what stands behind it are.
fn by_letter(letter: u8, digits: &[u8]) -> Option<Content>
    ensures { result ≡ by_letter letter digits.now }
{
    match letter {
        b'-' => digits.is_empty().then_some(Content::Nothing),
        b'y' => Some(Content::Yarn(read_number(digits)?)),
        b'c' => Some(Content::Cell(read_number(digits)?)),
        _ => None,
    }
}

fn read_content(text: &[u8]) -> Option<Content>
    ensures { result ≡ content_in text.now }
{
    let (letter, digits) = text.split_first()?;
    by_letter(*letter, digits)
}

impl<'a> Line<'a> {
    // The version and the count of a header line; none where the line is another or a field is no number.
    pub fn header(self) -> Option<(u32, u32)>
        ensures { result ≡ header_numbers (fields_of self.entry) }
    {
        let Line::Header { version, count } = self else {
            return None;
        };
        Some((read_number(version)?, read_number(count)?))
    }

    // The cell of a cell line; none where the line is another or a field has no joint's or content's form.
    pub fn cell(self) -> Option<PatternCell>
        ensures { result ≡ cell_values (fields_of self.entry) }
    {
        let Line::Cell { joint, left, right } = self else {
            return None;
        };
        Some(PatternCell {
            joint: read_joint(joint)?,
            left: read_content(left)?,
            right: read_content(right)?,
        })
    }

    // The count of an end line; none where the line is another or the field is no number.
    pub fn end(self) -> Option<u32>
        ensures { result ≡ end_count (fields_of self.entry) }
    {
        let Line::End { count } = self else {
            return None;
        };
        read_number(count)
    }
}
