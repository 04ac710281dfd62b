// Whether bytes are well-formed UTF-8, as RFC 3629, section 4, has it.
#![tactic(auto)]

ghost use Rattle.std.specs.Prelude.{◌≡◌, Some};
ghost use Rattle.utf8.specs.Reader.{lead as lead_of, step as step_of, utf8};
ghost use Rattle.utf8.specs.Values.{moved, state};

use octets::Ascii;

// How many bytes of a character are still to come, and the range of the next.
#[derive(Clone, Copy)]
pub struct Awaited {
    pub left: usize,
    pub low: u8,
    pub high: u8,
}

fn keep(left: usize, low: u8, high: u8) -> Option<Awaited>
    ensures { result ≡ Some (record { left = left; low = low; high = high }) }
{
    Some(Awaited { left, low, high })
}

// What the first byte of a character makes of the rest: none, where no character begins with it.
#[tactic(auto, unfolding(crate::specs::Reader::lead, octets::specs::Class::within))]
fn lead(b: u8) -> Option<Awaited>
    ensures { moved result ≡ lead_of b }
{
    // Tests in this order and no match: most bytes are ASCII, and a match makes of all of them one jump that goes by a table.
    if b < 0x80 {
        return keep(0, 0x80, 0xBF);
    }
    if b < 0xE0 {
        if 0xC2 <= b {
            return keep(1, 0x80, 0xBF);
        }
        return None;
    }
    if b < 0xF0 {
        let low = if b == 0xE0 { 0xA0 } else { 0x80 };
        let high = if b == 0xED { 0x9F } else { 0xBF };
        return keep(2, low, high);
    }
    if b <= 0xF4 {
        let low = if b == 0xF0 { 0x90 } else { 0x80 };
        let high = if b == 0xF4 { 0x8F } else { 0xBF };
        return keep(3, low, high);
    }
    None
}

#[tactic(auto, using(crate::proofs::Come::steps), unfolding(octets::specs::Class::within))]
fn step(a: Awaited, b: u8) -> Option<Awaited>
    ensures { moved result ≡ step_of (state a) b }
{
    if a.left == 0 {
        return lead(b);
    }
    if (a.low <= b) & (b <= a.high) {
        keep(a.left - 1, 0x80, 0xBF)
    } else {
        None
    }
}

// The machine begins at the first byte that is not ASCII, since most targets have none.
pub fn is_utf8(s: &[u8]) -> bool
    ensures { result ≡ utf8 s.now }
{
    let mut awaited = Awaited {
        left: 0,
        low: 0x80,
        high: 0xBF,
    };
    let start = skips::skip::<Ascii>(s, 0);
    for b in &s[start..] {
        let Some(next) = step(awaited, *b) else {
            return false;
        };
        awaited = next;
    }
    awaited.left == 0
}
