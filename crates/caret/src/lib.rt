// A line of the input, with a caret under one of its bytes.
#![tactic(auto)]

ghost use Rattle.std.specs.Prelude.{◌≤◌, length};

use page::place::Place;
use page::shown::{Escaped, Shown};
use std::fmt;

// A terminal has 80 columns, of which two stand before the line.
const COLUMNS: usize = 78;

// Of a longer line so many are shown before the byte and from it on, with three dots where it was cut.
const HALF: usize = 36;

// The line that a place stands in, and the caret there.
#[derive(Clone, Copy)]
pub struct Pointed<'a>(pub Place<'a>);

impl fmt::Display for Pointed<'_> {
    fn fmt<W: fmt::Write>(&self, f: &mut fmt::Formatter<W>) -> fmt::Result {
        let Pointed(place) = *self;
        let room = if first_fitting(place.line, COLUMNS) == place.line.len() {
            COLUMNS
        } else {
            HALF
        };
        let from = last_fitting(place.before, room);
        let to = first_fitting(place.behind, room);
        let before = &place.before[from..];
        let behind = &place.behind[..to];
        let cut_before = if 0 < from { "..." } else { "" };
        let cut_behind = if to < place.behind.len() { "..." } else { "" };
        writeln!(
            f,
            "  {cut_before}{}{}{cut_behind}",
            Escaped(before),
            Escaped(behind)
        )?;
        write!(f, "  {:1$}", "", cut_before.len())?;
        for &b in before {
            write!(f, "{:1$}", "", Shown(b).width())?;
        }
        writeln!(f, "^")
    }
}

// How many of the first bytes fit the room.
fn first_fitting(s: &[u8], room: usize) -> usize
    ensures { result ≤ length s.now }
{
    s.iter().scan(room, take_columns).count()
}

// Where the last bytes begin that fit the room.
fn last_fitting(s: &[u8], room: usize) -> usize
    ensures { result ≤ length s.now }
{
    s.len() - s.iter().rev().scan(room, take_columns).count()
}

// Takes a byte's columns from the room that is left, if they fit it.
fn take_columns(left: &mut usize, b: &u8) -> Option<()> {
    *left = left.checked_sub(Shown(*b).width())?;
    Some(())
}
