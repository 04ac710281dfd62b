// The start of a request: empty lines, and the request line.
#![tactic(auto)]

ghost use Rattle.std.specs.Prelude.{◌≡◌};
ghost use Rattle.rules.specs.Settings.{request_rules};
ghost use Rattle.startline.specs.Answers.{tell};
ghost use Rattle.requestline.specs.RequestLine.{request_line, unread};

use parts::{Error, Passed, Piece};
use rules::Settings;
use startline::StartLineRead;

#[derive(Clone, Copy)]
pub struct RequestLine {
    pub method: Option<Piece>,
    pub target: Option<Piece>,
    pub version: Option<usize>,
}

// The parts of the line, each of which is known once it was read.
fn read(s: &[u8], line: &mut RequestLine, settings: Settings) -> Passed
    requires { line.old ≡ unread }
    ensures { tell result line.new ≡ request_line (request_rules settings) s.now 0 }
{
    let at = parts::empty_lines(s, 0)?;
    let (method, at) = words::token(s, at, b' ', Error::Token)?;
    line.method = Some(method);
    let start = gaps::spaces(s, at, settings.spaces_in_request_line);
    let (target, at) = words::target(s, start, settings.ascii_targets)?;
    line.target = Some(target);
    let start = gaps::spaces(s, at, settings.spaces_in_request_line);
    let (version, at) = versions::version(s, start)?;
    line.version = Some(version);
    parts::line_end(s, at, Error::NewLine)
}

// Empty lines and a request line, from the start of the input.
pub fn request_line(s: &[u8], settings: Settings) -> StartLineRead<RequestLine>
    ensures { tell result.end result.line ≡ request_line (request_rules settings) s.now 0 }
{
    let mut line = RequestLine {
        method: None,
        target: None,
        version: None,
    };
    let end = read(s, &mut line, settings);
    StartLineRead { end, line }
}
