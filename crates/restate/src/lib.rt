// The plain form of what stands at the start of an input.
#![tactic(auto, using(crate::proofs::Restated::restatements))]

ghost use Rattle.restate.specs.Restated.{Restatement};

use reading::{Given, NUMBERS};
use wording::Kind;
use writer::Unwritten;

// Answers how many bytes were written. Nothing is written of an input that is incomplete or wrong, of a head with a value over several lines,
// or of a chunk size line: these have no plain form.
pub fn restate(out: &mut [u8], given: Given) -> Result<usize, Unwritten>
    ensures { Restatement given.entry.settings given.entry.bytes.now out.old given.entry.kind result out.new }
{
    let s = given.bytes;
    let mut slots = [0usize; NUMBERS];
    match given.kind {
        Kind::Request => {
            let head = calls::request(s, &mut slots, given.settings);
            writer::plain_form(s, head, &slots, out)
        }
        Kind::Response => {
            let head = calls::response(s, &mut slots, given.settings);
            writer::plain_form(s, head, &slots, out)
        }
        Kind::Headers => {
            let block = calls::headers(s, &mut slots);
            writer::plain_form(s, block, &slots, out)
        }
        Kind::Chunk => Err(Unwritten::Unwritable),
    }
}
