// A header's value, without the blanks around it.
#![tactic(auto)]

ghost use Rattle.std.specs.Prelude.{◌≡◌, ◌≤◌, length};
ghost use Rattle.parts.specs.Answers.{read};
ghost use Rattle.octets.specs.Class.{is_value};
ghost use Rattle.reader.specs.Skip.{Passed};
ghost use Rattle.values.specs.Trim.{Trimmed};
ghost use Rattle.values.specs.Value.{value as value_at};

use octets::{Blank, Value};
use parts::{Piece, Read, Unread};

// The end of s[from..end] with the blanks at its end cut off: of a value's bytes those up to the space are its blanks. One test tells both,
// since two of `Blank` may be guessed wrong at every byte where spaces and tabs stand in turn.
fn trim(s: &[u8], from: usize, end: usize) -> usize
    requires { (from ≤ end) × (end ≤ length s.now) × (Passed is_value s.now from end) }
    ensures { Trimmed s.now from end result }
{
    for last in (from..end).rev() {
        if s[last] > b' ' {
            return last + 1;
        }
    }
    from
}

// A value without the blanks around it, up to the first byte that can't stand in one.
#[tactic(auto, using(crate::specs::Value::values))]
pub fn value(s: &[u8], at: usize) -> Read<Piece>
    ensures { read result ≡ value_at s.now at }
{
    let start = skips::skip_each::<Blank>(s, at);
    let stop = skips::skip::<Value>(s, start);
    if s.len() <= stop {
        return Err(Unread::More);
    }
    let end = trim(s, start, stop);
    let value = Piece {
        offset: start,
        length: end - start,
    };
    Ok((value, stop))
}
