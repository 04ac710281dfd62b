// What was read of an input, in the same words for each kind.
#![tactic(auto)]

pub mod decided;

use blocks::Block;
use chunks::ChunkSize;
use heads::Head;
use parts::{Fault, Unread};
use requestline::RequestLine;
use rules::Settings;
use statusline::StatusLine;
use wording::{Kind, Wrong};

pub const MOST_HEADERS: usize = 100;

// Four numbers a header: where its name is, the name's length, where its value is, the value's length.
pub const NUMBERS: usize = MOST_HEADERS * 4;

pub type Slots = [usize; NUMBERS];

// What is given to be read: an input, as which kind, with which settings.
#[derive(Clone, Copy)]
pub struct Given<'a> {
    pub kind: Kind,
    pub bytes: &'a [u8],
    pub settings: Settings,
}

// What is wrong, and the position of the byte that decided it.
#[derive(Clone, Copy)]
pub struct Mistake {
    pub wrong: Wrong,
    pub position: usize,
}

impl From<Fault> for Mistake {
    fn from(fault: Fault) -> Self {
        Mistake {
            wrong: Wrong::Head(fault.error),
            position: fault.position,
        }
    }
}

// Of a wrong size only the position is told.
impl From<usize> for Mistake {
    fn from(position: usize) -> Self {
        Mistake {
            wrong: Wrong::Size,
            position,
        }
    }
}

// The position behind what was read; or more is wanted; or what is wrong.
pub type Answer = Result<usize, Unread<Mistake>>;

// What the start line tells, as far as it is known.
#[derive(Clone, Copy)]
pub enum First {
    Request(RequestLine),
    Status(StatusLine),
    Size(Option<usize>),
    Nothing,
}

impl From<RequestLine> for First {
    fn from(line: RequestLine) -> Self {
        First::Request(line)
    }
}

impl From<StatusLine> for First {
    fn from(line: StatusLine) -> Self {
        First::Status(line)
    }
}

#[derive(Clone, Copy)]
pub struct Reading {
    pub answer: Answer,
    pub first: First,
    pub count: usize,
}

pub fn read(given: Given, slots: &mut Slots) -> Reading {
    let Given {
        kind,
        bytes,
        settings,
    } = given;
    match kind {
        Kind::Request => told(calls::request(bytes, slots, settings)),
        Kind::Response => told(calls::response(bytes, slots, settings)),
        Kind::Headers => headers(calls::headers(bytes, slots)),
        Kind::Chunk => chunk(calls::chunk_size(bytes)),
    }
}

fn told<L: Into<First>>(head: Head<L>) -> Reading {
    Reading {
        answer: answer(head.end),
        first: head.line.into(),
        count: head.count,
    }
}

fn headers(block: Block) -> Reading {
    Reading {
        answer: answer(block.end),
        first: First::Nothing,
        count: block.count,
    }
}

fn chunk(found: ChunkSize) -> Reading {
    Reading {
        answer: answer(found.map(|(_, end)| end)),
        first: First::Size(found.ok().map(|(size, _)| size as usize)),
        count: 0,
    }
}

fn answer<F: Into<Mistake>>(end: Result<usize, Unread<F>>) -> Answer {
    end.map_err(|unread| match unread {
        Unread::More => Unread::More,
        Unread::Bad(fault) => Unread::Bad(fault.into()),
    })
}
