// What was expected where an error lies, a sentence each.
#![tactic(auto)]

ghost use Rattle.std.specs.Prelude.{Some};
ghost use Rattle.expected.specs.Sentences.{in_header, in_request_line, in_size, in_status_line, sentence};

use std::fmt;

#[derive(Clone, Copy)]
pub enum Expected {
    // behind a CR
    LineFeed,
    Request(InRequestLine),
    Status(InStatusLine),
    Header(InHeader),
    Size(InSize),
}

#[derive(Clone, Copy)]
pub enum InRequestLine {
    MethodStart,
    Method,
    // where a second space stands
    TargetStart,
    // behind a space, where there may be several
    SpacedTarget,
    Target,
    AsciiTarget,
    // at the space behind it
    Utf8Target,
    Version,
    // where several spaces may stand before it
    SpacedVersion,
    LineEnd,
}

#[derive(Clone, Copy)]
pub enum InStatusLine {
    Version,
    Space,
    Digit,
    // where several spaces may stand before the code
    SpacedDigit,
    BehindCode,
    Reason,
}

#[derive(Clone, Copy)]
pub enum InHeader {
    Start,
    // where blanks may stand before the first name
    SpacedStart,
    // where a value may go on
    StartOrMore,
    Name,
    // where blanks may stand before the colon
    SpacedName,
    // behind such a blank
    Colon,
    Value,
    // where a line that is no header is passed over
    NoNul,
    // where the slots are full
    NoMore,
}

#[derive(Clone, Copy)]
pub enum InSize {
    Start,
    Digit,
    // where a seventeenth stands
    NoMoreDigits,
    BehindDigits,
}

impl fmt::Display for Expected {
    ghost output = { λ expected. Some (sentence expected) };

    fn fmt<W: fmt::Write>(&self, f: &mut fmt::Formatter<W>) -> fmt::Result {
        match self {
            Expected::LineFeed => f.write_str(
                "LF (shown as \\n), since a CR (shown as \\r) stands before it",
            ),
            Expected::Request(place) => write!(f, "{place}"),
            Expected::Status(place) => write!(f, "{place}"),
            Expected::Header(place) => write!(f, "{place}"),
            Expected::Size(place) => write!(f, "{place}"),
        }
    }
}

impl fmt::Display for InRequestLine {
    ghost output = { λ place. Some (in_request_line place) };

    fn fmt<W: fmt::Write>(&self, f: &mut fmt::Formatter<W>) -> fmt::Result {
        f.write_str(match self {
            InRequestLine::MethodStart =>
                "a method, such as POST, in letters, digits and !#$%&'*+-.^_`|~",
            InRequestLine::Method =>
                "more of the method, in letters, digits and !#$%&'*+-.^_`|~, or a space behind it",
            InRequestLine::TargetStart =>
                "a target, such as /orders; a second space here makes it empty",
            InRequestLine::SpacedTarget => "another space, or a target with no control byte in it",
            InRequestLine::Target =>
                "a target with no blank and no control byte in it, and a space behind it",
            InRequestLine::AsciiTarget =>
                "a target in visible ASCII, as --ascii-targets asks, and a space behind it",
            InRequestLine::Utf8Target =>
                "a target in UTF-8 before this space, and what stands there is not UTF-8",
            InRequestLine::Version =>
                "HTTP/1.0 or HTTP/1.1, right behind the one space that ends the target",
            InRequestLine::SpacedVersion => "HTTP/1.0 or HTTP/1.1, behind one space or more",
            InRequestLine::LineEnd =>
                "the line's end, CR LF (shown as \\r\\n), right behind the version",
        })
    }
}

impl fmt::Display for InStatusLine {
    ghost output = { λ place. Some (in_status_line place) };

    fn fmt<W: fmt::Write>(&self, f: &mut fmt::Formatter<W>) -> fmt::Result {
        f.write_str(match self {
            InStatusLine::Version => "HTTP/1.0 or HTTP/1.1, at the start of the line",
            InStatusLine::Space => "a space between the version and the code",
            InStatusLine::Digit =>
                "a digit, since the code is three digits, right behind one space",
            InStatusLine::SpacedDigit =>
                "a digit, since the code is three digits, behind one space or more",
            InStatusLine::BehindCode =>
                "a space and the reason, or the line's end, right behind the three digits of the code",
            InStatusLine::Reason =>
                "more of the reason, with no control byte but the tab, or the line's end, CR LF (shown as \\r\\n)",
        })
    }
}

impl fmt::Display for InHeader {
    ghost output = { λ place. Some (in_header place) };

    fn fmt<W: fmt::Write>(&self, f: &mut fmt::Formatter<W>) -> fmt::Result {
        f.write_str(match self {
            InHeader::Start => "a header's name, or the empty line that ends the headers",
            InHeader::SpacedStart =>
                "a blank, the first header's name, or the empty line that ends the headers",
            InHeader::StartOrMore =>
                "a header's name, a blank and more of the value above, or the empty line that ends the headers",
            InHeader::Name =>
                "the colon, with no blank before it, or more of the name, in letters, digits and !#$%&'*+-.^_`|~",
            InHeader::SpacedName =>
                "the colon, a blank, or more of the name, in letters, digits and !#$%&'*+-.^_`|~",
            InHeader::Colon => "the colon, or another blank before it",
            InHeader::Value =>
                "more of the value, with no control byte but the tab, or the line's end, CR LF (shown as \\r\\n)",
            InHeader::NoNul =>
                "any byte but NUL (shown as \\x00), since --ignore-invalid-headers passes over no line with one in it",
            InHeader::NoMore =>
                "the empty line that ends the headers, since headread keeps 100 and this is one more",
        })
    }
}

impl fmt::Display for InSize {
    ghost output = { λ place. Some (in_size place) };

    fn fmt<W: fmt::Write>(&self, f: &mut fmt::Formatter<W>) -> fmt::Result {
        f.write_str(match self {
            InSize::Start => "the size, in hexadecimal digits: 0 to 9, a to f or A to F",
            InSize::Digit =>
                "a hexadecimal digit, or behind the digits a blank, a ; or the line's end, CR LF (shown as \\r\\n)",
            InSize::NoMoreDigits =>
                "a blank, a ; or the line's end, CR LF (shown as \\r\\n), since a size has at most 16 digits",
            InSize::BehindDigits =>
                "a blank, a ; or the line's end, CR LF (shown as \\r\\n), behind the digits",
        })
    }
}
