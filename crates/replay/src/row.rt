// Reading a row of recorded answers: numbers, and bytes in hexadecimal, with a space behind each.
ghost use Rattle.std.specs.Prelude.{◌<◌, ◌≤◌, length};

use octets::{Class, Digit};

// Ten times a number below this fits 64 bits.
const TEN_TIMES_FITS: u64 = 1844674407370955162;

// A row, as far as it is not read yet.
#[derive(Drop)]
pub struct Row<'a> {
    rest: &'a [u8],
}

impl<'a> Row<'a> {
    pub fn new(bytes: &'a [u8]) -> Row<'a> {
        Row { rest: bytes }
    }

    // The next byte, but for a space, which ends what is read.
    fn byte(&mut self) -> Option<u8> {
        let (first, rest) = self.rest.split_first()?;
        self.rest = rest;
        if *first == b' ' { None } else { Some(*first) }
    }

    // A decimal number, and the byte behind it. Digits beyond 64 bits are dropped: no row has them.
    pub fn number(&mut self) -> u64 {
        let mut value: u64 = 0;
        let mut count = self.rest.len();
        // one loop, since with a second one over the digits long numbers take 1.4 times as long
        for (i, b) in self.rest.iter().enumerate() {
            if !Digit::holds(*b) {
                count = i;
                break;
            }
            if value < TEN_TIMES_FITS {
                value = (value * 10).wrapping_add(u64::from(b.wrapping_sub(b'0')));
            }
        }
        self.rest = self.rest.get(count..).unwrap_or(&[]);
        self.byte();
        value
    }

    // Whether the next numbers are these.
    pub fn has(&mut self, numbers: &[usize]) -> bool {
        for number in numbers {
            if self.number() != *number as u64 {
                return false;
            }
        }
        true
    }

    // Two hexadecimal digits.
    fn pair(&mut self) -> Option<u8> {
        let high = self.byte()?;
        let low = self.byte()?;
        Some(worth(high) * 16 + worth(low))
    }

    // The bytes whose pairs of hexadecimal digits stand up to a space. A row's empty input is a hyphen, which is no pair.
    pub fn input<'b>(&mut self, room: &'b mut [u8]) -> &'b [u8]
        ensures { length result.now ≤ length room.old }
    {
        for (count, byte) in room.iter_mut().enumerate() {
            match self.pair() {
                Some(b) => *byte = b,
                None => return &room[..count],
            }
        }
        self.byte();
        room
    }
}

// What a hexadecimal digit in lower case is worth; `to_digit` takes capitals too, which are worth nothing here.
fn worth(b: u8) -> u8
    ensures { result < 16 }
{
    match b {
        b'0'..=b'9' => b - b'0',
        b'a'.. => (b - b'a' + 10) % 16,
        _ => 0,
    }
}
