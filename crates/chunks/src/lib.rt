// The line that says how long a chunk of a body is.
#![tactic(auto)]

ghost use Rattle.std.specs.Prelude.{◌≡◌, ◌≤◌, ◌<◌, length, true};
ghost use Rattle.octets.specs.Class.{is_hex_digit};
ghost use Rattle.rules.specs.Rules.{default};
ghost use Rattle.chunks.specs.Chunk.{Worth, is_extension, chunk, size_of, from, cr, extension as in_extension, blanks as in_blanks};

use octets::{Blank, Class, HexDigit};
use parts::Unread;

// The size and the position behind the line; or more is wanted; or the byte at a position is wrong.
pub type ChunkSize = Result<(u64, usize), Unread<usize>>;

// The LF behind a CR.
#[tactic(auto, using(crate::specs::Chunk::behinds))]
fn line_feed(s: &[u8], at: usize, size: u64) -> ChunkSize
    ensures { size_of result ≡ from (cr size) s.now at }
{
    if parts::byte(s, at)? == b'\n' {
        Ok((size, at + 1))
    } else {
        Err(Unread::Bad(at))
    }
}

// The bytes of an extension: any but the CR that ends it.
struct ExtensionByte;

impl Class for ExtensionByte {
    ghost holds = { is_extension };

    #[tactic(auto, unfolding(crate::specs::Chunk::is_extension))]
    fn holds(b: u8) -> bool {
        b != 13
    }
}

// An extension of any bytes, and the line's end.
fn extension(s: &[u8], at: usize, size: u64) -> ChunkSize
    requires { at ≤ length s.now }
    ensures { size_of result ≡ from (in_extension size) s.now at }
{
    let end = skips::skip_each::<ExtensionByte>(s, at);
    if s.len() <= end {
        return Err(Unread::More);
    }
    line_feed(s, end + 1, size)
}

// What may stand behind the digits.
fn behind_digits(s: &[u8], at: usize, size: u64) -> ChunkSize
    requires { at ≤ length s.now }
    ensures { size_of result ≡ from (in_blanks size) s.now at }
{
    let next = skips::skip_each::<Blank>(s, at);
    match parts::byte(s, next)? {
        b';' => extension(s, next + 1, size),
        b'\r' => line_feed(s, next + 1, size),
        _ => Err(Unread::Bad(next)),
    }
}

// What a hexadecimal digit is worth.
fn worth_of(b: u8) -> u64
    requires { is_hex_digit b ≡ true }
    ensures { Worth b result }
{
    if b < b'A' {
        return u64::from(b - b'0');
    }
    if b < b'a' {
        return u64::from(b - 0x37);
    }
    u64::from(b - 0x57)
}

// A chunk size line, from the start of the input.
pub fn chunk_size(s: &[u8]) -> ChunkSize
    ensures { size_of result ≡ chunk default s.now }
{
    let mut size: u64 = 0;
    for (i, b) in s.iter().enumerate() {
        if !HexDigit::holds(*b) {
            return behind_digits(s, i, size);
        }
        if 16 <= i {
            return Err(Unread::Bad(i));
        }
        size = size * 16 + worth_of(*b);
    }
    Err(Unread::More)
}
