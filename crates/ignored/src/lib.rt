// The rest of a header's line that is passed over, from the byte on that is wrong in it.
#![tactic(auto)]

ghost use Rattle.std.specs.Prelude.{◌≡◌, ◌≤◌, length};
ghost use Rattle.parts.specs.Answers.{passed};
ghost use Rattle.ignored.specs.Rest.{is_ignorable, StartsIn, rest_of_line};

use octets::Class;
use parts::{Fault, Passed};

// The bytes that are neither NUL nor of a line's end.
struct Ignorable;

impl Class for Ignorable {
    ghost holds = { is_ignorable };

    #[tactic(auto, unfolding(crate::specs::Rest::is_ignorable))]
    fn holds(b: u8) -> bool {
        !((b == 0) | (b == 13) | (b == 10))
    }
}

// Where the line's end begins: at a CR right before the wrong byte, if the line that began at `at` has one there.
#[tactic(auto, using(crate::proofs::RestOfLine::rests))]
fn start(s: &[u8], at: usize, wrong: usize) -> usize
    ensures { StartsIn s.now at wrong result }
{
    if wrong <= at {
        return skips::skip_each::<Ignorable>(s, wrong);
    }
    if s.len() < wrong {
        return wrong;
    }
    if s[wrong - 1] == 13 {
        return wrong - 1;
    }
    skips::skip_each::<Ignorable>(s, wrong)
}

// The end of the line that began at `at`, in which a byte is wrong; a NUL on the way, or a CR without LF, is the same error there.
pub fn rest(s: &[u8], at: usize, wrong: Fault) -> Passed
    ensures { wrong.position ≤ length s.now → passed result ≡ rest_of_line wrong.error s.now at wrong.position }
{
    let end = start(s, at, wrong.position);
    let error = wrong.error;
    parts::line_end(s, end, error)
}
