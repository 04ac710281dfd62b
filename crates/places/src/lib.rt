// Whether what was read is complete and lies in the input, and of a response, whose values may go on over several lines, that none does.
#![tactic(auto, using(crate::specs::Checks::checks, crate::specs::Lines::lines))]

ghost use Rattle.std.specs.Prelude.{ℕ, List, ◌≡◌, ◌+◌, ◌*◌, ◌≤◌, length, take, drop};
ghost use Rattle.plain.specs.Plain.{one_line, OneLine};
ghost use Rattle.agreement.specs.Known.{fields_in};
ghost use Rattle.agreement.specs.Places.{held};
ghost use Rattle.places.specs.Checks.{Decides, Both};
ghost use Rattle.places.specs.Slots.{header_at, SlotLies};
ghost use Rattle.places.specs.Lies.{Complete, Lies, AtMost, SlotsLie, RequestLies, ResponseLies, BlockLies};

use blocks::Block;
use fields::Header;
use heads::Head;
use parts::{Passed, Piece};
use requestline::RequestLine;
use statusline::StatusLine;

fn complete(end: Passed) -> bool
    ensures { Decides (Complete end) result }
{
    end.is_ok()
}

fn within(s: &[u8], p: Piece) -> bool
    ensures { Decides (p.offset + p.length ≤ length s.now) result }
{
    p.offset <= s.len() && p.length <= s.len() - p.offset
}

fn piece(s: &[u8], known: Option<Piece>) -> bool
    ensures { Decides (Lies s.now known) result }
{
    let Some(p) = known else { return false };
    within(s, p)
}

fn number(most: usize, known: Option<usize>) -> bool
    ensures { Decides (AtMost most known) result }
{
    let Some(n) = known else { return false };
    n <= most
}

// The header at an index, of which the slots hold four numbers.
pub fn header(slots: &[usize], index: usize) -> Header
    requires { index * 4 + 4 ≤ length slots.now }
    ensures { result ≡ header_at slots.now (index * 4) }
{
    let at = index * 4;
    Header {
        name: Piece {
            offset: slots[at],
            length: slots[at + 1],
        },
        value: Piece {
            offset: slots[at + 2],
            length: slots[at + 3],
        },
    }
}

// The name and the value of the header at an index.
fn slot(s: &[u8], slots: &[usize], index: usize) -> bool
    requires { index * 4 + 4 ≤ length slots.now }
    ensures { Decides (SlotLies (length s.now) slots.now (index * 4)) result }
{
    let header = header(slots, index);
    within(s, header.name) && within(s, header.value)
}

// The first `count` headers.
fn slots(s: &[u8], slots: &[usize], count: usize) -> bool
    ensures { Decides (SlotsLie s.now count slots.now) result }
{
    if slots.len() / 4 < count {
        return false;
    }
    for index in 0..count {
        if !slot(s, slots, index) {
            return false;
        }
    }
    true
}

// Whether no byte of a value ends a line.
fn value_on_one_line(s: &[u8], value: Piece) -> bool
    requires { value.offset + value.length ≤ length s.now }
    ensures { Decides (one_line (held s.now value)) result }
{
    !s[value.offset..value.offset + value.length].contains(&b'\n')
}

// Whether the values of the first `count` headers stand on one line each.
fn one_line(s: &[u8], slots: &[usize], count: usize) -> bool
    requires { SlotsLie s.now count slots.now }
    ensures { Decides (OneLine (fields_in s.now count slots.now)) result }
{
    for index in 0..count {
        if !value_on_one_line(s, header(slots, index).value) {
            return false;
        }
    }
    true
}

// The first `count` headers, with values on one line each.
fn slots_on_one_line(s: &[u8], all: &[usize], count: usize) -> bool
    ensures { Decides (Both (SlotsLie s.now count all.now) (OneLine (fields_in s.now count all.now))) result }
{
    slots(s, all, count) && one_line(s, all, count)
}

// What was read, and what has to hold of it so that its plain form can be written.
pub trait Writable: Copy {
    // by the input and the slots
    ghost lies: { List ℕ → Self → List ℕ → Type 0 };

    fn lies(self, s: &[u8], all: &[usize]) -> bool
        ensures { Decides (lies s.now self all.now) result };
}

impl Writable for Head<RequestLine> {
    ghost lies = { RequestLies };

    fn lies(self, s: &[u8], all: &[usize]) -> bool {
        let line = self.line;
        complete(self.end)
            && piece(s, line.method)
            && piece(s, line.target)
            && number(9, line.version)
            && slots(s, all, self.count)
    }
}

impl Writable for Head<StatusLine> {
    ghost lies = { ResponseLies };

    fn lies(self, s: &[u8], all: &[usize]) -> bool {
        let line = self.line;
        complete(self.end)
            && number(9, line.version)
            && number(999, line.code)
            && piece(s, line.reason)
            && slots_on_one_line(s, all, self.count)
    }
}

impl Writable for Block {
    ghost lies = { BlockLies };

    fn lies(self, s: &[u8], all: &[usize]) -> bool {
        complete(self.end) && slots(s, all, self.count)
    }
}
