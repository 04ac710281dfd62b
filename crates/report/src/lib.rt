// The report on an input: an answer, told to a person or to a script, and the rows of what was found.
#![tactic(auto)]

mod folded;
mod rows;

use caret::Pointed;
use expected::Expected;
use page::place::Place;
use page::text::Page;
use parts::{Piece, Unread};
use reading::decided::expected;
use reading::{Answer, Given, Mistake, NUMBERS, Reading};
use rows::Rows;
use std::fmt;
use std::fmt::Write;
use wording::Kind;
use wording::advice::advice;

// Whom a report is for.
#[derive(Clone, Copy)]
pub enum Audience {
    Person,
    Script,
}

// The report takes the place of what the page has. A page that has no room for it is an error, here and in what is called.
pub fn report(page: &mut Page, audience: Audience, given: Given) -> fmt::Result {
    page.clear();
    let mut slots = [0usize; NUMBERS];
    let reading = reading::read(given, &mut slots);
    match audience {
        Audience::Person => for_person(page, given, reading)?,
        Audience::Script => for_script(page, reading.answer, given.bytes)?,
    }
    let mut rows = Rows {
        page,
        audience,
        bytes: given.bytes,
    };
    rows.first_line(reading.first)?;
    match given.kind {
        Kind::Chunk => Ok(()),
        _ => rows.headers(&slots, reading.count),
    }
}

// The report to a person on an input that has no plain form: where it is complete, on the value that keeps it from having one.
pub fn no_plain_form(page: &mut Page, given: Given) -> fmt::Result {
    page.clear();
    let mut slots = [0usize; NUMBERS];
    let reading = reading::read(given, &mut slots);
    match reading.answer {
        Ok(_) => folded::folded(page, given.bytes, &slots),
        _ => report(page, Audience::Person, given),
    }
}

// The answer, and where the input is complete or where it is not.
fn for_script(page: &mut Page, answer: Answer, s: &[u8]) -> fmt::Result {
    match answer {
        Ok(end) => write!(page, "answer\tcomplete\nend\t{end}\n"),
        Err(Unread::More) => {
            writeln!(page, "answer\tincomplete")?;
            stop_rows(page, s, s.len())
        }
        Err(Unread::Bad(mistake)) => {
            writeln!(page, "answer\terror\t{}", mistake.wrong)?;
            stop_rows(page, s, mistake.position)
        }
    }
}

// The position where the reading stopped, and the line that it stopped in.
fn stop_rows(page: &mut Page, s: &[u8], position: usize) -> fmt::Result {
    let place = Place::at(s, position);
    writeln!(page, "stopped\t{position}")?;
    writeln!(page, "line-number\t{}", place.number)?;
    let line = Piece {
        offset: place.start,
        length: place.line.len(),
    };
    rows::piece(page, "line", s, line)
}

fn for_person(page: &mut Page, given: Given, reading: Reading) -> fmt::Result {
    match reading.answer {
        Ok(end) => complete(page, given, end)?,
        Err(Unread::More) => incomplete(page, given)?,
        Err(Unread::Bad(mistake)) => {
            refused(page, given, mistake, expected(given, reading, mistake))?;
        }
    }
    heading(page, given.kind)
}

fn complete(page: &mut Page, given: Given, end: usize) -> fmt::Result {
    let kind = given.kind;
    let all = given.bytes.len();
    writeln!(page, "complete: {kind} is the first {end} of {all} bytes")
}

fn incomplete(page: &mut Page, given: Given) -> fmt::Result {
    let kind = given.kind;
    write!(page, "incomplete")?;
    stop(page, given.bytes, given.bytes.len())?;
    write!(
        page,
        "  expected: more bytes, since the input ends before {kind} does
  to do:    try again from the start when more bytes have come; if none will, the sender broke off: discard
            what came and ask for all of it again
"
    )
}

fn refused(page: &mut Page, given: Given, mistake: Mistake, expected: Expected) -> fmt::Result {
    let advice = advice(expected);
    write!(page, "error {}", mistake.wrong)?;
    stop(page, given.bytes, mistake.position)?;
    write!(page, "  expected: {expected}\n  to do:    {advice}\n")
}

// Where the reading stopped, and the line that it stopped in.
fn stop(page: &mut Page, s: &[u8], position: usize) -> fmt::Result {
    let place = Place::at(s, position);
    writeln!(page, " at offset {position}, in line {}:", place.number)?;
    write!(page, "{}", Pointed(place))
}

// What stands in the rows, but for a chunk's single row.
fn heading(page: &mut Page, kind: Kind) -> fmt::Result {
    match kind {
        Kind::Chunk => Ok(()),
        _ => write!(page, "\nfield\toffset\tlength\ttext\n"),
    }
}
