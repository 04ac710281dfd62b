// The rows of a report: one a field, with tabs between its parts.
use crate::Audience;
use page::place::part;
use page::shown::Escaped;
use page::text::Page;
use parts::Piece;
use reading::{First, Slots};
use requestline::RequestLine;
use statusline::StatusLine;
use std::fmt;
use std::fmt::Write;

// The page that rows are written on, whom they are for, and the input that they tell of.
#[derive(Drop)]
pub struct Rows<'a, 'b> {
    pub page: &'a mut Page<'b>,
    pub audience: Audience,
    pub bytes: &'a [u8],
}

impl Rows<'_, '_> {
    // What the start line tells.
    pub fn first_line(&mut self, first: First) -> fmt::Result {
        match first {
            First::Request(line) => self.request_line(line),
            First::Status(line) => self.status_line(line),
            First::Size(Some(size)) => writeln!(self.page, "size\t{size}"),
            First::Size(None) | First::Nothing => Ok(()),
        }
    }

    fn request_line(&mut self, line: RequestLine) -> fmt::Result {
        self.known_piece("method", line.method)?;
        self.known_piece("target", line.target)?;
        self.known_version(line.version)
    }

    fn status_line(&mut self, line: StatusLine) -> fmt::Result {
        self.known_version(line.version)?;
        if let Some(code) = line.code {
            self.number("code", code)?;
        }
        self.known_piece("reason", line.reason)
    }

    // How many headers are given, and each of them.
    pub fn headers(&mut self, slots: &Slots, count: usize) -> fmt::Result {
        self.number("count", count)?;
        let (headers, _) = slots.as_chunks::<4>();
        for &numbers in headers.iter().take(count) {
            let (name, value) = header(numbers);
            piece(self.page, "name", self.bytes, name)?;
            piece(self.page, "value", self.bytes, value)?;
        }
        Ok(())
    }

    fn known_piece(&mut self, name: &str, known: Option<Piece>) -> fmt::Result {
        match known {
            Some(known) => piece(self.page, name, self.bytes, known),
            None => Ok(()),
        }
    }

    fn known_version(&mut self, known: Option<usize>) -> fmt::Result {
        match known {
            Some(minor) => match self.audience {
                Audience::Person => writeln!(self.page, "version\t\t\tHTTP/1.{minor}"),
                Audience::Script => writeln!(self.page, "version\t{minor}"),
            },
            None => Ok(()),
        }
    }

    // A number has no place in the input: a script gets it right behind its name, a person under the heading of the texts.
    fn number(&mut self, name: &str, n: usize) -> fmt::Result {
        match self.audience {
            Audience::Person => writeln!(self.page, "{name}\t\t\t{n}"),
            Audience::Script => writeln!(self.page, "{name}\t{n}"),
        }
    }
}

// A header's name and value, from its four numbers.
pub fn header([name, name_length, value, value_length]: [usize; 4]) -> (Piece, Piece) {
    (
        Piece {
            offset: name,
            length: name_length,
        },
        Piece {
            offset: value,
            length: value_length,
        },
    )
}

// A part of the input: where it is, how long it is, and its text.
pub fn piece(page: &mut Page, name: &str, s: &[u8], piece: Piece) -> fmt::Result {
    let Piece { offset, length } = piece;
    let text = Escaped(part(s, offset, length));
    writeln!(page, "{name}\t{offset}\t{length}\t{text}")
}
