// Eight bytes as one number, the first lowest: how many of them, from the first on, are surely of a class.
#![tactic(auto)]

ghost use Rattle.std.specs.Prelude.{◌≡◌, ◌≤◌};
ghost use Rattle.flags.specs.Sure.{flags, clear as clear_of, Sure};
ghost use Rattle.flags.specs.Test.{at_word, both, either, high, least, none};
ghost use Rattle.flags.specs.Classes.{not_token, not_visible};

use octets::{Ascii, Class, Target, Token, Value, Visible};

// A class that is told of eight bytes at once: those before the first that it doubts.
pub trait Eights: Class {
    fn sure(x: u64) -> usize
        ensures { Sure Self.holds x result };
}

const LOW: u64 = 0x7f7f_7f7f_7f7f_7f7f;

const FLAGS: u64 = 0x8080_8080_8080_8080;

const ONES: u64 = 0x0101_0101_0101_0101;

// How many bytes stand before the first that has a flag: all eight, if none has, which is tested apart since callers go on from there.
fn clear(flags: u64) -> usize
    ensures { result ≡ clear_of flags }
{
    if flags == 0 {
        return 8;
    }
    flags.trailing_zeros() as usize / 8
}

// The same byte by byte: the processor guesses the number, and what comes next need not wait for it.
#[tactic(auto, using(crate::specs::Steps::counts))]
fn clear_by_steps(flags: u64) -> usize
    ensures { result ≡ clear_of flags }
{
    if flags == 0 {
        return 8;
    }
    let mut rest = flags;
    for count in 0..8 {
        if rest % 256 != 0 {
            return count;
        }
        rest /= 256;
    }
    8
}

// Flags, and other bits, in the bytes whose seven low bits are below LEAST or those of DEL.
fn low_or_delete<const LEAST: u64>(x: u64) -> u64
    requires { LEAST ≤ 128 }
    ensures { result ≡ at_word (either (none (least LEAST)) (least 0x7F)) 8 x }
{
    let y = x & LOW;
    ((y + (0x80 - LEAST) * ONES) ^ FLAGS) | (y + ONES)
}

// Flags in the bytes below LEAST, and in DEL: from 0x80 on there are none.
fn text_flags<const LEAST: u64>(x: u64) -> u64
    requires { LEAST ≤ 128 }
    ensures { result ≡ flags (both (either (none (least LEAST)) (least 0x7F)) (none high)) x }
{
    low_or_delete::<LEAST>(x) & (x ^ FLAGS) & FLAGS
}

// Flags in the bytes below 0x21, and from 0x7F on.
fn visible_flags(x: u64) -> u64
    ensures { result ≡ flags not_visible x }
{
    (low_or_delete::<0x21>(x) | x) & FLAGS
}

// Letters and hyphens have none, of which most names are made; digits and the other marks are left to the test of one byte.
fn token_flags(x: u64) -> u64
    ensures { result ≡ flags not_token x }
{
    let y = x & LOW;
    let capital = x & 0x5f5f_5f5f_5f5f_5f5f;
    let letter = (capital + 0x3f3f_3f3f_3f3f_3f3f) & ((capital + 0x2525_2525_2525_2525) ^ FLAGS);
    let hyphen = (y + 0x5353_5353_5353_5353) & ((y + 0x5252_5252_5252_5252) ^ FLAGS);
    (((letter | hyphen) ^ FLAGS) | x) & FLAGS
}

// A tab has a flag too: the test of a single byte takes it.
impl Eights for Value {
    fn sure(x: u64) -> usize {
        clear_by_steps(text_flags::<0x20>(x))
    }
}

impl Eights for Target {
    fn sure(x: u64) -> usize {
        clear(text_flags::<0x21>(x))
    }
}

impl Eights for Visible {
    fn sure(x: u64) -> usize {
        clear(visible_flags(x))
    }
}

impl Eights for Token {
    fn sure(x: u64) -> usize {
        clear(token_flags(x))
    }
}

impl Eights for Ascii {
    fn sure(x: u64) -> usize {
        clear(x & FLAGS)
    }
}
