// The spaces of a status line: behind its version, and behind its code.
#![tactic(auto)]

ghost use Rattle.std.specs.Prelude.{◌≡◌};
ghost use Rattle.rules.specs.Rules.{default};
ghost use Rattle.parts.specs.Answers.{passed};
ghost use Rattle.spaces.specs.Space.{space as space_at, behind_code};

use parts::{Error, Passed, Unread};

// The single space between a version and a code.
pub fn space(s: &[u8], at: usize, error: Error) -> Passed
    ensures { passed result ≡ space_at error s.now at }
{
    if parts::byte(s, at)? == b' ' {
        Ok(at + 1)
    } else {
        Err(Unread::bad(error, at))
    }
}

// The space before a reason, or nothing where the line ends right behind its code.
pub fn behind_code(s: &[u8], at: usize) -> Passed
    ensures { passed result ≡ behind_code default s.now at }
{
    match parts::byte(s, at)? {
        b' ' => Ok(at + 1),
        b'\r' | b'\n' => Ok(at),
        _ => Err(Unread::bad(Error::Status, at)),
    }
}
