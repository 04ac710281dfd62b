// Words: a row of bytes of a class and the byte that ends it, as methods, header names and request targets are.
#![tactic(auto)]

ghost use Rattle.std.specs.Prelude.{◌≡◌, not};
ghost use Rattle.octets.specs.Class.{is_token};
ghost use Rattle.parts.specs.Answers.{read};
ghost use Rattle.words.specs.Word.{word};
ghost use Rattle.words.specs.Target.{target as target_at, target_byte};

use flags::Eights;
use octets::{Class, Target, Token, Visible};
use parts::{Error, Piece, Read, Unread};

// One or more token bytes, and the byte that ends them.
pub fn token(s: &[u8], at: usize, end: u8, error: Error) -> Read<Piece>
    ensures { read result ≡ word is_token end error s.now at }
{
    if !Token::holds(parts::byte(s, at)?) {
        return Err(Unread::bad(error, at));
    }
    let stop = skips::skip::<Token>(s, at + 1);
    if parts::byte(s, stop)? != end {
        return Err(Unread::bad(error, stop));
    }
    let word = Piece {
        offset: at,
        length: stop - at,
    };
    Ok((word, stop + 1))
}

// One or more bytes of a class, and a space. That they are UTF-8 is looked at when the space is there, and not before. It is no instance of
// `token`: the definitions are two machines, since that of a target follows its UTF-8 byte by byte.
fn target_of<C: Eights>(s: &[u8], at: usize) -> Read<Piece>
    ensures { read result ≡ target_at C.holds s.now at }
{
    if !C::holds(parts::byte(s, at)?) {
        return Err(Unread::bad(Error::Token, at));
    }
    let gap = skips::skip::<C>(s, at + 1);
    if parts::byte(s, gap)? != b' ' {
        return Err(Unread::bad(Error::Token, gap));
    }
    if !utf8::is_utf8(&s[at..gap]) {
        return Err(Unread::bad(Error::Token, gap));
    }
    let target = Piece {
        offset: at,
        length: gap - at,
    };
    Ok((target, gap + 1))
}

// A target, of visible ASCII alone where that is asked for.
pub fn target(s: &[u8], at: usize, ascii: bool) -> Read<Piece>
    ensures { read result ≡ target_at (target_byte (not ascii)) s.now at }
{
    if ascii {
        target_of::<Visible>(s, at)
    } else {
        target_of::<Target>(s, at)
    }
}
