//! A due line, and what the rules ask of the numbers in it.
ghost use Rattle.std.specs.Prelude.{◌≡◌};
ghost use Rattle.archive.specs.Answers.{line_answer};
ghost use Rattle.archive.specs.Reading.{content_fits, count_fits, goes_on, line_at, line_goes_on};

use crate::fault::FileFault;
use cells::{Content, MOST_CELLS};
use lines::{Line, LineFault, PatternCell};
use text::cut_at;

const LINE_END: u8 = 10;

pub(crate) fn count_fits(n: u32) -> bool
    ensures { result ≡ count_fits n }
{
    (1..=MOST_CELLS).contains(&n)
}

pub(crate) fn content_fits(count: u32, content: Content) -> bool
    ensures { result ≡ content_fits count content }
{
    content.check(count).is_ok()
}

// The greatest number named once `content` is read.
fn goes_on(greatest: u32, content: Content) -> Option<u32>
    ensures { result ≡ goes_on greatest content }
{
    let Content::Cell(k) = content else {
        return Some(greatest);
    };
    if k > greatest.saturating_add(1) {
        return None;
    }
    Some(greatest.max(k))
}

// The greatest number named once the line of cell `i` is read.
pub(crate) fn line_goes_on(i: u32, greatest: u32, cell: PatternCell) -> Option<u32>
    ensures { result ≡ line_goes_on i greatest cell }
{
    if i > greatest {
        return None;
    }
    goes_on(goes_on(greatest, cell.left)?, cell.right)
}

// The due line and the text behind it.
pub(crate) fn line_at<'a>(text: &'a [u8], line: usize) -> Result<(Line<'a>, &'a [u8]), FileFault>
    ensures { line_answer result ≡ line_at line text.now }
{
    let (body, rest) = cut_at(text, LINE_END).ok_or(FileFault::NoLine(line))?;
    let fields = Line::read(body).ok_or(LineFault::Form(line))?;
    Ok((fields, rest))
}
