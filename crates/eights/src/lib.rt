// How many of the next eight bytes are surely of a class: none, where fewer than eight are left.
#![tactic(auto)]

ghost use Rattle.std.specs.Prelude.{◌+◌, ◌≤◌, ◌<◌, length};
ghost use Rattle.eights.specs.Ahead.{Ahead, Loaded};

use flags::Eights;

// The first byte lowest. Each has a line of its own, of which the compiler makes one load.
fn load(s: &[u8], i: usize) -> u64
    requires { i + 8 ≤ length s.now }
    ensures { Loaded s.now i result }
{
    u64::from_le_bytes([
        s[i],
        s[i + 1],
        s[i + 2],
        s[i + 3],
        s[i + 4],
        s[i + 5],
        s[i + 6],
        s[i + 7],
    ])
}

// The answer may be fewer than there are: the class may doubt a byte that is of it.
pub fn ahead<C: Eights>(s: &[u8], i: usize) -> usize
    requires { i < length s.now }
    ensures { Ahead C.holds s.now i result }
{
    if s.len() - i < 8 {
        return 0;
    }
    C::sure(load(s, i))
}
