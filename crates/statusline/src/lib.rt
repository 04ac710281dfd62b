// The start of a response: empty lines, and the status line.
#![tactic(auto)]

ghost use Rattle.std.specs.Prelude.{◌≡◌};
ghost use Rattle.rules.specs.Rules.{default};
ghost use Rattle.rules.specs.Settings.{response_rules};
ghost use Rattle.parts.specs.Answers.{read as read_of};
ghost use Rattle.startline.specs.Answers.{tell};
ghost use Rattle.statusline.specs.StatusLine.{status_line, reason_end, unread};

use parts::{Error, Passed, Piece, Read};
use rules::Settings;
use startline::StartLineRead;

#[derive(Clone, Copy)]
pub struct StatusLine {
    pub version: Option<usize>,
    pub code: Option<usize>,
    pub reason: Option<Piece>,
}

// A reason, and the end of its line.
fn reason_line(s: &[u8], at: usize) -> Read<Piece>
    ensures { read_of result ≡ reason_end default s.now at }
{
    let (reason, next) = status::reason(s, at)?;
    let behind = parts::line_end(s, next, Error::Status)?;
    Ok((reason, behind))
}

// The parts of the line, each of which is known once it was read, and the reason once its line has ended.
fn read(s: &[u8], line: &mut StatusLine, settings: Settings) -> Passed
    requires { line.old ≡ unread }
    ensures { tell result line.new ≡ status_line (response_rules settings) s.now 0 }
{
    let at = parts::empty_lines(s, 0)?;
    let (version, at) = versions::version(s, at)?;
    line.version = Some(version);
    let at = spaces::space(s, at, Error::Version)?;
    let start = gaps::spaces(s, at, settings.spaces_in_status_line);
    let (code, at) = status::code(s, start)?;
    line.code = Some(code);
    let at = spaces::behind_code(s, at)?;
    let start = gaps::spaces(s, at, settings.spaces_in_status_line);
    let (reason, at) = reason_line(s, start)?;
    line.reason = Some(reason);
    Ok(at)
}

// Empty lines and a status line, from the start of the input.
pub fn status_line(s: &[u8], settings: Settings) -> StartLineRead<StatusLine>
    ensures { tell result.end result.line ≡ status_line (response_rules settings) s.now 0 }
{
    let mut line = StatusLine {
        version: None,
        code: None,
        reason: None,
    };
    let end = read(s, &mut line, settings);
    StartLineRead { end, line }
}
