// A header's value to the end of its line, or, where the lines behind it may go on with it, to the end of the last that does.
#![tactic(auto)]

ghost use Rattle.std.specs.Prelude.{◌≡◌};
ghost use Rattle.rules.specs.Rules.{default};
ghost use Rattle.parts.specs.Answers.{read};
ghost use Rattle.folds.specs.Folded.{Joins, value_line, joined as joined_of, multiline_rules, value_lines};

use octets::{Blank, Class};
use parts::{Error, Piece, Read};

// A value, and the end of its line.
fn line(s: &[u8], at: usize) -> Read<Piece>
    ensures { read result ≡ value_line default s.now at }
{
    let (value, next) = values::value(s, at)?;
    let behind = parts::line_end(s, next, Error::HeaderValue)?;
    Ok((value, behind))
}

// A value, and that of one more line.
#[tactic(auto, using(crate::specs::Folded::joins))]
fn joined(value: Piece, line: Piece) -> Piece
    requires { Joins value line }
    ensures { result ≡ joined_of value line }
{
    if value.length == 0 {
        return line;
    }
    if line.length == 0 {
        return value;
    }
    Piece {
        offset: value.offset,
        length: line.offset + line.length - value.offset,
    }
}

// A value to its line's end, and, where `multiline` says so, each line behind it that begins with a blank. One loop reads both, so that `line`
// has one call site and is inlined there; no `for`, since a turn goes on behind the line before it.
pub fn lines(s: &[u8], at: usize, multiline: bool) -> Read<Piece>
    ensures { read result ≡ value_lines (multiline_rules multiline) s.now at }
{
    let mut i = at;
    let mut value = Piece {
        offset: 0,
        length: 0,
    };
    loop {
        let (piece, next) = line(s, i)?;
        if !multiline {
            return Ok((piece, next));
        }
        let behind = parts::byte(s, next)?;
        value = joined(value, piece);
        if !Blank::holds(behind) {
            return Ok((value, next));
        }
        i = next;
    }
}
