// The version of a start line.
#![tactic(auto)]

ghost use Rattle.std.specs.Prelude.{◌≡◌};
ghost use Rattle.parts.specs.Answers.{read};
ghost use Rattle.versions.specs.Version.{version as version_at};

use parts::{Error, Read, Unread};

const NAME: [u8; 7] = *b"HTTP/1.";

// HTTP/1.0 or HTTP/1.1, and the last digit of it.
#[tactic(auto, using(crate::specs::Version::versions))]
pub fn version(s: &[u8], at: usize) -> Read<usize>
    ensures { read result ≡ version_at s.now at }
{
    let mut i = at;
    for b in NAME {
        if parts::byte(s, i)? != b {
            return Err(Unread::bad(Error::Version, i));
        }
        i += 1;
    }
    match parts::byte(s, i)? {
        b'0' => Ok((0, i + 1)),
        b'1' => Ok((1, i + 1)),
        _ => Err(Unread::bad(Error::Version, i)),
    }
}
