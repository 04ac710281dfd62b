// What can be read and what can be wrong with it, and what an answer means, in words that somebody can act on.
#![tactic(auto)]

ghost use Rattle.std.specs.Prelude.{Some};
ghost use Rattle.wording.specs.Words.{name, subject};

pub mod advice;

use parts::Error;
use std::fmt;

// What an input is read as.
#[derive(Clone, Copy)]
pub enum Kind {
    Request,
    Response,
    Headers,
    Chunk,
}

// What can be wrong with an input.
#[derive(Clone, Copy)]
pub enum Wrong {
    Head(Error),
    Size,
}

impl fmt::Display for Kind {
    ghost output = { λ kind. Some (subject kind) };

    fn fmt<W: fmt::Write>(&self, f: &mut fmt::Formatter<W>) -> fmt::Result {
        f.write_str(match self {
            Kind::Request => "the request's head",
            Kind::Response => "the response's head",
            Kind::Headers => "the block of headers",
            Kind::Chunk => "the chunk's size line",
        })
    }
}

// The error's name in the library.
impl fmt::Display for Wrong {
    ghost output = { λ wrong. Some (name wrong) };

    fn fmt<W: fmt::Write>(&self, f: &mut fmt::Formatter<W>) -> fmt::Result {
        f.write_str(match self {
            Wrong::Size => "InvalidChunkSize",
            Wrong::Head(error) => match error {
                Error::HeaderName => "HeaderName",
                Error::HeaderValue => "HeaderValue",
                Error::NewLine => "NewLine",
                Error::Status => "Status",
                Error::Token => "Token",
                Error::TooManyHeaders => "TooManyHeaders",
                Error::Version => "Version",
            },
        })
    }
}
