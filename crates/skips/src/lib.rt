// The end of a row of bytes of a class.
#![tactic(auto)]

ghost use Rattle.reader.specs.Skip.{Skipped};

use flags::Eights;
use octets::Class;

// Each skip answers where the row of bytes of the class that starts at `at` ends, and `at` itself where that is past the end.
// Here one test tells whether eight bytes are left, and the last few have a loop of their own.
// Where all eight are of the class, the next position does not wait for what they are: the processor guesses, and reads on.
pub fn skip<C: Eights>(s: &[u8], at: usize) -> usize
    ensures { Skipped C.holds s.now at result }
{
    if s.len() <= at {
        return at;
    }
    let mut i = at;
    // A `while`, since a step is of eight bytes or of fewer.
    while 8 <= s.len() - i {
        let n = eights::ahead::<C>(s, i);
        if n == 8 {
            i += 8;
        } else {
            i += n;
            if !C::holds(s[i]) {
                return i;
            }
            i += 1;
        }
    }
    skip_each::<C>(s, i)
}

// For rows that are short or seldom, and for classes that are not told of eight bytes at once.
pub fn skip_each<C: Class>(s: &[u8], at: usize) -> usize
    ensures { Skipped C.holds s.now at result }
{
    for end in at..s.len() {
        if !C::holds(s[end]) {
            return end;
        }
    }
    usize::max(at, s.len())
}
