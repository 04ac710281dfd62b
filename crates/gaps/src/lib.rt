// The end of the spaces or blanks that a setting lets stand before a part.
#![tactic(auto)]

ghost use Rattle.std.specs.Prelude.{◌≡◌, ◌&&◌};
ghost use Rattle.reader.specs.Skip.{Skipped};
ghost use Rattle.gaps.specs.Gap.{is_space, spaces_if, blanks_if};

use octets::{Blank, Class};

struct Space;

impl Class for Space {
    ghost holds = { is_space };

    fn holds(b: u8) -> bool {
        b == 32
    }
}

// The end of the bytes of a class from `at` on, where they are allowed, and `at` itself where that is past the end.
fn skip_allowed<C: Class>(s: &[u8], at: usize, allowed: bool) -> usize
    ensures { Skipped (λ b. allowed && C.holds b) s.now at result }
{
    if allowed {
        skips::skip_each::<C>(s, at)
    } else {
        at
    }
}

// The end of the spaces from `at` on, where they are allowed. This and the next are named for what a line may have, so that no caller picks a class.
pub fn spaces(s: &[u8], at: usize, allowed: bool) -> usize
    ensures { Skipped (spaces_if allowed) s.now at result }
{
    skip_allowed::<Space>(s, at, allowed)
}

// The end of the spaces and tabs from `at` on, where they are allowed.
pub fn blanks(s: &[u8], at: usize, allowed: bool) -> usize
    ensures { Skipped (blanks_if allowed) s.now at result }
{
    skip_allowed::<Blank>(s, at, allowed)
}
