// The block of header lines up to the empty one, over slots that the caller lends.
#![tactic(auto)]

ghost use Rattle.std.specs.Prelude.{◌≡◌, [], ◌++◌, ◌+◌, ◌/◌, ◌≤◌, length, take, drop};
ghost use Rattle.rules.specs.Settings.{line_rules};
ghost use Rattle.blocks.specs.Block.{block as block_at, Told};
ghost use Rattle.blocks.specs.Slots.{numbers};

use fields::{Header, Line};
use parts::{Error, Passed, Unread};
use rules::LineSettings;

// What reading the block comes to, and how many headers are in the slots.
#[derive(Clone, Copy)]
pub struct Block {
    pub end: Passed,
    pub count: usize,
}

// A header's four numbers, from `at` on.
fn put(slots: &mut [usize], at: usize, header: Header)
    requires { at + 4 ≤ length slots.old }
    ensures { slots.new ≡ take at slots.old ++ numbers header ++ drop (at + 4) slots.old }
{
    let name = header.name;
    let value = header.value;
    slots[at..at + 4].copy_from_slice(&[name.offset, name.length, value.offset, value.length]);
}

// The lines from `at` to the empty one, of which `count` headers are in the slots.
fn lines(
    s: &[u8],
    at: usize,
    slots: &mut [usize],
    count: &mut usize,
    settings: LineSettings,
) -> Passed
    requires { count.old ≡ 0 }
    ensures { Told (block_at (line_rules settings) (length slots.old / 4) [] s.now at) (record { end = result; count = count.new }) slots.old slots.new }
{
    let n = slots.len() / 4;
    let mut i = at;
    // each turn goes on behind the line before it, so no `for` counts them
    loop {
        let first = gaps::blanks(s, i, settings.space_before_first_name & (*count == 0));
        let (line, next) = fields::header_line(s, first, settings)?;
        match line {
            Line::Header(header) => {
                if n <= *count {
                    return Err(Unread::bad(Error::TooManyHeaders, header.name.offset));
                }
                put(slots, *count * 4, header);
                *count += 1;
            }
            Line::Ignored => {}
            Line::End => return Ok(next),
        }
        i = next;
    }
}

// The lines from `at` to the empty one. A header takes four numbers of `slots`; the rest of them is left as it was.
pub fn header_block(s: &[u8], at: usize, slots: &mut [usize], settings: LineSettings) -> Block
    ensures { Told (block_at (line_rules settings) (length slots.old / 4) [] s.now at) result slots.old slots.new }
{
    let mut count = 0;
    let end = lines(s, at, slots, &mut count, settings);
    Block { end, count }
}
