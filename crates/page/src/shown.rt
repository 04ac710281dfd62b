// Bytes of the input as they are shown.
ghost use Rattle.std.specs.Prelude.{◌≡◌, ◌≤◌, ◌+◌, ◌<◌, ◌++◌, IfOk, Some, false, length, take, flat_map};
ghost use Rattle.std.specs.Fmt.{digit_glyph};
ghost use Rattle.page.specs.Shown.{shown};

use std::fmt;

// A byte as it is shown, in the first bytes of four, of which each takes a column.
#[derive(Clone, Copy)]
pub struct Escape {
    pub text: [u8; 4],
    pub columns: usize,
}

pub fn escape_of(b: u8) -> Escape
    ensures text { take result.columns result.text ≡ shown b }
    ensures columns { result.columns ≤ 4 }
{
    let (text, columns) = match b {
        b'\t' => (*b"\\t  ", 2),
        b'\n' => (*b"\\n  ", 2),
        b'\r' => (*b"\\r  ", 2),
        b'\\' => (*b"\\\\  ", 2),
        b' '..=b'~' => ([b, b' ', b' ', b' '], 1),
        _ => ([b'\\', b'x', digit(b / 16), digit(b % 16)], 4),
    };
    Escape { text, columns }
}

// A hexadecimal digit.
fn digit(n: u8) -> u8
    requires { n < 16 }
    ensures { result ≡ digit_glyph false n }
{
    if n < 10 { b'0' + n } else { b'a' + (n - 10) }
}

// What is shown is text: bytes that are none are an error, which no escape has.
fn text(s: &[u8]) -> Result<&str, fmt::Error>
    ensures { IfOk result (λ text. text.now ≡ s.now) }
{
    std::str::from_utf8(s).map_err(|_| fmt::Error)
}

// A byte that is not printable ASCII is shown as an escape, and a backslash as two, so that a script can tell the bytes from the text.
#[derive(Clone, Copy)]
pub struct Shown(pub u8);

impl Shown {
    // How many columns it takes.
    pub fn width(self) -> usize
        ensures { result ≡ length (shown self.0) }
    {
        escape_of(self.0).columns
    }
}

impl fmt::Display for Shown {
    ghost output = { λ b. Some (shown b.0) };

    fn fmt<W: fmt::Write>(&self, f: &mut fmt::Formatter<W>) -> fmt::Result {
        let escape = escape_of(self.0);
        f.write_str(text(&escape.text[..escape.columns])?)
    }
}

// So many bytes of text are handed to the formatter at once, since a call of it for each byte takes two to three times as long.
const PART: usize = 64;

// Puts a byte as it is shown behind what stands in the room, and answers where it ends.
fn put(room: &mut [u8; PART], at: usize, b: u8) -> usize
    requires { at ≤ 60 }
    ensures within { result ≤ at + 4 }
    ensures put { take result room.new ≡ take at room.old ++ shown b }
{
    let escape = escape_of(b);
    room[at..at + 4].copy_from_slice(&escape.text);
    at + escape.columns
}

// Bytes, each as it is shown.
#[derive(Clone, Copy)]
pub struct Escaped<'a>(pub &'a [u8]);

impl fmt::Display for Escaped<'_> {
    ghost output = { λ s. Some (flat_map shown s.0.now) };

    fn fmt<W: fmt::Write>(&self, f: &mut fmt::Formatter<W>) -> fmt::Result {
        let mut room = [0; PART];
        let mut filled = 0;
        for &b in self.0 {
            if PART - 4 < filled {
                f.write_str(text(&room[..filled])?)?;
                filled = 0;
            }
            filled = put(&mut room, filled, b);
        }
        let rest = text(&room[..filled])?;
        f.write_str(rest)
    }
}
