// Inner parts, writers and rows as C functions, for the Rust tests to call and for nobody else.
mod in_a_row;
mod writers;

ghost use Rattle.std.specs.Prelude.{◌≡◌};
ghost use Rattle.utf8.specs.Reader.{utf8 as utf8_of};

use octets::{Ascii, Blank, Class, Digit, HexDigit, Target, Token, Value, Visible};

#[unsafe(no_mangle)]
pub extern "C" fn harness_utf8(s: &[u8]) -> bool
    ensures { result ≡ utf8_of s.now }
{
    utf8::is_utf8(s)
}

// The classes by number, since C has no types to choose by: token, target, value, blank, ASCII, visible ASCII, digit, hexadecimal digit.
#[unsafe(no_mangle)]
pub extern "C" fn harness_is(class: u8, b: u8) -> bool {
    match class {
        0 => Token::holds(b),
        1 => Target::holds(b),
        2 => Value::holds(b),
        3 => Blank::holds(b),
        4 => Ascii::holds(b),
        5 => Visible::holds(b),
        6 => Digit::holds(b),
        7 => HexDigit::holds(b),
        _ => false,
    }
}

// The first six of them have a skip.
#[unsafe(no_mangle)]
pub extern "C" fn harness_skip(class: u8, s: &[u8], at: usize) -> usize {
    match class {
        0 => skips::skip::<Token>(s, at),
        1 => skips::skip::<Target>(s, at),
        2 => skips::skip::<Value>(s, at),
        3 => skips::skip_each::<Blank>(s, at),
        4 => skips::skip::<Ascii>(s, at),
        5 => skips::skip::<Visible>(s, at),
        _ => at,
    }
}
