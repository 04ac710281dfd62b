// One line of a header block: a header, whose value may go on over several, one that is passed over, or the empty line that ends it.
#![tactic(auto)]

ghost use Rattle.std.specs.Prelude.{◌≡◌};
ghost use Rattle.reader.specs.Answer.{and};
ghost use Rattle.rules.specs.Settings.{line_rules};
ghost use Rattle.names.specs.Name.{name as name_at};
ghost use Rattle.fields.specs.Line.{line as line_at, onward, line_of, LiesIn, rest_of};

use parts::{Error, Piece, Read, Unread};
use rules::LineSettings;

#[derive(Clone, Copy)]
pub struct Header {
    pub name: Piece,
    pub value: Piece,
}

// What a line is: a header, over one line or several; one that is passed over; or the empty line, which ends the block.
#[derive(Clone, Copy)]
pub enum Line {
    Header(Header),
    Ignored,
    End,
}

// A name, its colon and a value.
fn field_line(s: &[u8], at: usize, settings: LineSettings) -> Read<Line>
    ensures { line_of result ≡ and (name_at (line_rules settings) s.now at) (onward (line_rules settings) s.now) }
{
    let (name, next) = names::name(s, at, settings.spaces_after_name)?;
    let (value, behind) = folds::lines(s, next, settings.multiline_headers)?;
    Ok((Line::Header(Header { name, value }), behind))
}

// The line that began at `at` and is no header, to its end: a byte of it is wrong.
fn passed_over(s: &[u8], at: usize, unread: Unread) -> Read<Line>
    ensures { LiesIn s.now unread → line_of result ≡ rest_of unread s.now at }
{
    match unread {
        Unread::More => Err(Unread::More),
        Unread::Bad(wrong) => {
            let next = ignored::rest(s, at, wrong)?;
            Ok((Line::Ignored, next))
        }
    }
}

// The line that starts at `at`.
pub fn header_line(s: &[u8], at: usize, settings: LineSettings) -> Read<Line>
    ensures { line_of result ≡ line_at (line_rules settings) s.now at }
{
    let first = parts::byte(s, at)?;
    if (first == b'\r') | (first == b'\n') {
        let next = parts::line_end(s, at, Error::NewLine)?;
        return Ok((Line::End, next));
    }
    let line = field_line(s, at, settings);
    if !settings.ignore_invalid_headers {
        return line;
    }
    match line {
        Ok(_) => line,
        Err(unread) => passed_over(s, at, unread),
    }
}
