// Texts put one behind another into a lent slice, each if there is room for all of it, and how long they are in all.
#![tactic(auto)]

ghost use Rattle.output.specs.Put.{Adds, WholeOrNot};

// Puts a text at a position if it ends within `out`. Answers the position behind it, and usize::MAX where there is no such number: no Option, since
// `Adds` is written of that position, and what puts one text behind another adds up in any case.
pub fn put(out: &mut [u8], at: usize, text: &[u8]) -> usize
    ensures adds { Adds text.now at out.old result out.new }
    ensures whole_or_not { WholeOrNot text.now at out.old out.new }
{
    if usize::MAX - at < text.len() {
        return usize::MAX;
    }
    let end = at + text.len();
    if out.len() < end {
        return end;
    }
    out[at..end].copy_from_slice(text);
    end
}
