// A header's name, up to the colon behind it.
#![tactic(auto)]

ghost use Rattle.std.specs.Prelude.{◌≡◌, true, false};
ghost use Rattle.rules.specs.Settings.{changed};
ghost use Rattle.parts.specs.Answers.{read};
ghost use Rattle.names.specs.Name.{name as name_at};
ghost use Rattle.names.specs.Colon.{BehindName};

use octets::{Class, Token};
use parts::{Error, Passed, Piece, Read, Unread};

// The colon behind a name's end: before it spaces and tabs where they are allowed, and nothing else.
fn colon(s: &[u8], end: usize, allowed: bool) -> Passed
    ensures { BehindName allowed s.now end result }
{
    let next = gaps::blanks(s, end, allowed);
    if parts::byte(s, next)? == b':' {
        Ok(next + 1)
    } else {
        Err(Unread::bad(Error::HeaderName, next))
    }
}

// One or more token bytes and a colon, with spaces and tabs between them where they are allowed.
pub fn name(s: &[u8], at: usize, allowed: bool) -> Read<Piece>
    ensures { read result ≡ name_at (changed true false false false allowed false false) s.now at }
{
    if !Token::holds(parts::byte(s, at)?) {
        return Err(Unread::bad(Error::HeaderName, at));
    }
    let end = skips::skip::<Token>(s, at + 1);
    if s.len() <= end {
        return Err(Unread::More);
    }
    let next = colon(s, end, allowed)?;
    let name = Piece {
        offset: at,
        length: end - at,
    };
    Ok((name, next))
}
