// The code and the reason of a status line.
#![tactic(auto)]

ghost use Rattle.std.specs.Prelude.{◌≡◌, MatchResult};
ghost use Rattle.parts.specs.Answers.{read};
ghost use Rattle.status.specs.Code.{code as code_at, IsDigitAt, IsNoDigit};
ghost use Rattle.status.specs.Reason.{reason as reason_at};

use octets::{Ascii, Class, Digit, Value};
use parts::{Error, Piece, Read, Unread};

// What the digit at a position is worth.
#[tactic(auto, unfolding(octets::specs::Class::is_digit, octets::specs::Class::within))]
fn digit(s: &[u8], at: usize) -> Result<usize, Unread>
    ensures { MatchResult result (IsDigitAt s.now at) (IsNoDigit s.now at) }
{
    let b = parts::byte(s, at)?;
    if Digit::holds(b) {
        Ok(usize::from(b - b'0'))
    } else {
        Err(Unread::bad(Error::Status, at))
    }
}

// Three digits, and the number that they write.
#[tactic(auto, using(crate::specs::Code::codes))]
pub fn code(s: &[u8], at: usize) -> Read<usize>
    ensures { read result ≡ code_at s.now at }
{
    let hundreds = digit(s, at)?;
    let second = at + 1;
    let tens = digit(s, second)?;
    let third = second + 1;
    let ones = digit(s, third)?;
    Ok((hundreds * 100 + tens * 10 + ones, third + 1))
}

// The reason up to its line's end, given as empty where it has a byte from 0x80 on.
#[tactic(auto, using(crate::specs::Reason::reasons))]
pub fn reason(s: &[u8], at: usize) -> Read<Piece>
    ensures { read result ≡ reason_at s.now at }
{
    let end = skips::skip::<Value>(s, at);
    if s.len() <= end {
        return Err(Unread::More);
    }
    // no further than the reason: what stands behind a head is not looked at
    let ascii = skips::skip::<Ascii>(&s[..end], at);
    let length = if ascii < end { 0 } else { end - at };
    Ok((Piece { offset: at, length }, end))
}
