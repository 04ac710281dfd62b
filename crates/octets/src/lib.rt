// The classes of bytes that a head is read by, each a type with a test of a byte.
#![tactic(auto, using(crate::proofs::Tests::tests))]

ghost use Rattle.std.specs.Prelude.{◌≡◌, ℕ, Bool};
ghost use Rattle.octets.specs.Class.{is_ascii, is_blank, is_digit, is_hex_digit, is_target, is_token, is_value, is_visible};

// A class of bytes, by which generic code is told what to pass over: no value of its type is ever made.
pub trait Class {
    ghost holds: { ℕ → Bool };

    fn holds(b: u8) -> bool
        ensures { result ≡ holds b };
}

// A bit for each token byte below 64, and for each from 64 to 127: a table would be made anew on the stack at each call.
const TOKEN_LOW: u64 = 0x03ff_6cfa_0000_0000;

const TOKEN_HIGH: u64 = 0x57ff_ffff_c7ff_fffe;

pub struct Token;

impl Class for Token {
    ghost holds = { is_token };

    fn holds(b: u8) -> bool {
        let half = if b < 64 { TOKEN_LOW } else { TOKEN_HIGH };
        (b < 128) & ((half >> (b % 64)) % 2 == 1)
    }
}

pub struct Visible;

impl Class for Visible {
    ghost holds = { is_visible };

    fn holds(b: u8) -> bool {
        (b > 32) & (b < 127)
    }
}

pub struct Target;

impl Class for Target {
    ghost holds = { is_target };

    fn holds(b: u8) -> bool {
        (b > 32) & (b != 127)
    }
}

pub struct Value;

impl Class for Value {
    ghost holds = { is_value };

    fn holds(b: u8) -> bool {
        (b >= 32) & (b != 127) | (b == 9)
    }
}

pub struct Blank;

impl Class for Blank {
    ghost holds = { is_blank };

    fn holds(b: u8) -> bool {
        (b == 32) | (b == 9)
    }
}

pub struct Digit;

impl Class for Digit {
    ghost holds = { is_digit };

    fn holds(b: u8) -> bool {
        (b >= 48) & (b <= 57)
    }
}

pub struct HexDigit;

impl Class for HexDigit {
    ghost holds = { is_hex_digit };

    fn holds(b: u8) -> bool {
        (48 <= b) & (b <= 57) | (65 <= b) & (b <= 70) | (97 <= b) & (b <= 102)
    }
}

pub struct Ascii;

impl Class for Ascii {
    ghost holds = { is_ascii };

    fn holds(b: u8) -> bool {
        b < 128
    }
}
