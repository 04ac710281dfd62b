// What was expected at the byte that decided an error.
use crate::{First, Given, Mistake, Reading};
use expected::{Expected, InHeader, InRequestLine, InSize, InStatusLine};
use heads::StartLine;
use octets::{Blank, Class, HexDigit, Visible};
use page::place::Place;
use parts::Error;
use requestline::RequestLine;
use rules::{LineSettings, Settings};
use statusline::StatusLine;
use wording::Wrong;

// What the start line told by then says which part of it the byte stands in. A CR is the start of a line's end, wherever it is read.
pub fn expected(given: Given, reading: Reading, mistake: Mistake) -> Expected {
    let settings = given.settings;
    let place = Place::at(given.bytes, mistake.position);
    if place.before.last() == Some(&b'\r') {
        return Expected::LineFeed;
    }
    match mistake.wrong {
        Wrong::Size => Expected::Size(in_size(place)),
        Wrong::Head(error) => {
            let refused = Refused {
                error,
                place,
                count: reading.count,
            };
            match reading.first {
                First::Request(line) => refused.in_request(line, settings),
                First::Status(line) => refused.in_response(line, settings),
                _ => refused.in_header(LineSettings::default()),
            }
        }
    }
}

// What is wrong with a head, where, and how many headers were read before it.
#[derive(Clone, Copy)]
struct Refused<'a> {
    error: Error,
    place: Place<'a>,
    count: usize,
}

impl Refused<'_> {
    fn in_request(self, line: RequestLine, settings: Settings) -> Expected {
        match self.error {
            Error::Token => Expected::Request(match line.method {
                Some(_) => in_target(self.place, settings.spaces_in_request_line),
                None => in_method(self.place),
            }),
            Error::Version => Expected::Request(in_version(settings.spaces_in_request_line)),
            Error::NewLine => Expected::Request(InRequestLine::LineEnd),
            _ => self.in_header(RequestLine::line_settings(settings)),
        }
    }

    fn in_response(self, line: StatusLine, settings: Settings) -> Expected {
        match self.error {
            Error::Version => Expected::Status(match line.version {
                Some(_) => InStatusLine::Space,
                None => InStatusLine::Version,
            }),
            Error::Status => Expected::Status(match line.code {
                Some(_) => behind_code(self.place.before),
                None => in_code(settings.spaces_in_status_line),
            }),
            _ => self.in_header(StatusLine::line_settings(settings)),
        }
    }

    fn in_header(self, settings: LineSettings) -> Expected {
        Expected::Header(match self.error {
            Error::TooManyHeaders => InHeader::NoMore,
            _ => self.in_line(settings),
        })
    }

    // Where lines that are no headers are passed over, no byte of a name or a value is wrong but a NUL.
    fn in_line(self, settings: LineSettings) -> InHeader {
        if settings.ignore_invalid_headers {
            return InHeader::NoNul;
        }
        match self.error {
            Error::HeaderValue => InHeader::Value,
            _ => in_name(self.place.before, self.count, settings),
        }
    }
}

fn in_method(place: Place) -> InRequestLine {
    if place.before.is_empty() {
        InRequestLine::MethodStart
    } else {
        InRequestLine::Method
    }
}

// A space ends a target, so it is wrong where none stands before it, or one that is not UTF-8. Bytes from 0x80 on are wrong only where
// ASCII is asked for.
fn in_target(place: Place, spaces: bool) -> InRequestLine {
    let behind_space = place.before.last() == Some(&b' ');
    match place.behind.first() {
        Some(b' ') if behind_space => InRequestLine::TargetStart,
        Some(b' ') => InRequestLine::Utf8Target,
        Some(0x80..) => InRequestLine::AsciiTarget,
        _ if spaces && behind_space => InRequestLine::SpacedTarget,
        _ => InRequestLine::Target,
    }
}

fn in_version(spaces: bool) -> InRequestLine {
    if spaces {
        InRequestLine::SpacedVersion
    } else {
        InRequestLine::Version
    }
}

fn in_code(spaces: bool) -> InStatusLine {
    if spaces {
        InStatusLine::SpacedDigit
    } else {
        InStatusLine::Digit
    }
}

// A version, spaces and a code, with nothing behind them yet or with the space that a reason stands behind.
fn behind_code(line: &[u8]) -> InStatusLine {
    let version_end = skips::skip::<Visible>(line, 0);
    let code = skips::skip_each::<Blank>(line, version_end);
    let code_end = skips::skip::<Visible>(line, code);
    if code_end == line.len() {
        InStatusLine::BehindCode
    } else {
        InStatusLine::Reason
    }
}

// Where there are only blanks before the byte, if any, no name has begun.
fn in_name(line: &[u8], count: usize, settings: LineSettings) -> InHeader {
    if skips::skip_each::<Blank>(line, 0) == line.len() {
        return line_start(count, settings);
    }
    if !settings.spaces_after_name {
        return InHeader::Name;
    }
    if line.last().is_some_and(|&b| Blank::holds(b)) {
        InHeader::Colon
    } else {
        InHeader::SpacedName
    }
}

fn line_start(count: usize, settings: LineSettings) -> InHeader {
    if count == 0 {
        if settings.space_before_first_name {
            return InHeader::SpacedStart;
        }
        return InHeader::Start;
    }
    if settings.multiline_headers {
        InHeader::StartOrMore
    } else {
        InHeader::Start
    }
}

// Two digits in a row are wrong only where a size has too many, and behind a blank no digit may stand.
fn in_size(place: Place) -> InSize {
    let behind_blank = place.before.last().is_some_and(|&b| Blank::holds(b));
    let at_digit = place.behind.first().is_some_and(|&b| HexDigit::holds(b));
    if place.before.is_empty() {
        InSize::Start
    } else if behind_blank {
        InSize::BehindDigits
    } else if at_digit {
        InSize::NoMoreDigits
    } else if place.before.len() < 16 {
        InSize::Digit
    } else {
        InSize::BehindDigits
    }
}
