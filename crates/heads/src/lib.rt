// A request, a response, and a block of headers alone, each equal to its reader. They demand nothing of the caller.
#![tactic(auto)]

ghost use Rattle.std.specs.Prelude.{◌≡◌, ℕ, List, [], false, ◌/◌, length};
ghost use Rattle.reader.specs.Answer.{Answer};
ghost use Rattle.parts.specs.declared.Fault.{Fault};
ghost use Rattle.rules.specs.Rules.{default};
ghost use Rattle.rules.specs.declared.Settings.{Settings as Asked};
ghost use Rattle.rules.specs.declared.LineSettings.{LineSettings as AskedOfLines};
ghost use Rattle.rules.specs.Settings.{line_rules, request_rules, response_rules};
ghost use Rattle.startline.specs.Answers.{tell};
ghost use Rattle.requestline.specs.RequestLine.{request_line};
ghost use Rattle.statusline.specs.StatusLine.{status_line};
ghost use Rattle.blocks.specs.Block.{block, Told as BlockTold};
ghost use Rattle.heads.specs.Head.{Heads, headed, over, Told};
ghost use Rattle.heads.specs.Calls.{request as request_of, response as response_of, request_parts, response_parts};

use blocks::Block;
use parts::Passed;
use requestline::RequestLine;
use rules::{LineSettings, Settings};
use startline::StartLineRead;
use statusline::StatusLine;

// A start line, and what the settings ask of the header lines behind it.
pub trait StartLine: Copy {
    ghost line: { Asked → List ℕ → Answer Self Self (Fault × Self) };

    ghost lines: { Asked → AskedOfLines };

    // what the whole head comes to, by the number of slots
    ghost head: { Asked → ℕ → List ℕ → Heads Self };

    fn read(s: &[u8], settings: Settings) -> StartLineRead<Self>
        ensures { tell result.end result.line ≡ line settings s.now };

    fn line_settings(settings: Settings) -> LineSettings
        ensures { result ≡ lines settings };

    // a head is its start line, and behind it the header block
    ghost parts: { (settings : Asked) (n : ℕ) (xs : List ℕ) → head settings n xs ≡ headed (line settings xs) (λ k q. over k (block (line_rules (lines settings)) n [] xs q)) };
}

impl StartLine for RequestLine {
    ghost line = { λ settings xs. request_line (request_rules settings) xs 0 };

    ghost lines = { λ settings. record { space_before_first_name = settings.space_before_first_name; spaces_after_name = false; multiline_headers = false; ignore_invalid_headers = settings.ignore_invalid_headers_in_requests } };

    ghost head = { λ settings. request_of (request_rules settings) };

    ghost parts = { λ settings. request_parts (request_rules settings) };

    fn read(s: &[u8], settings: Settings) -> StartLineRead<RequestLine> {
        requestline::request_line(s, settings)
    }

    // blanks behind a name and values over several lines are for responses alone
    fn line_settings(settings: Settings) -> LineSettings {
        LineSettings {
            space_before_first_name: settings.space_before_first_name,
            spaces_after_name: false,
            multiline_headers: false,
            ignore_invalid_headers: settings.ignore_invalid_headers_in_requests,
        }
    }
}

impl StartLine for StatusLine {
    ghost line = { λ settings xs. status_line (response_rules settings) xs 0 };

    ghost lines = { λ settings. record { space_before_first_name = settings.space_before_first_name; spaces_after_name = settings.spaces_after_name; multiline_headers = settings.multiline_headers; ignore_invalid_headers = settings.ignore_invalid_headers_in_responses } };

    ghost head = { λ settings. response_of (response_rules settings) };

    ghost parts = { λ settings. response_parts (response_rules settings) };

    fn read(s: &[u8], settings: Settings) -> StartLineRead<StatusLine> {
        statusline::status_line(s, settings)
    }

    fn line_settings(settings: Settings) -> LineSettings {
        LineSettings {
            space_before_first_name: settings.space_before_first_name,
            spaces_after_name: settings.spaces_after_name,
            multiline_headers: settings.multiline_headers,
            ignore_invalid_headers: settings.ignore_invalid_headers_in_responses,
        }
    }
}

// What reading a head comes to, what is known of its start line, and how many headers are in the slots.
#[derive(Clone, Copy)]
pub struct Head<L> {
    pub end: Passed,
    pub line: L,
    pub count: usize,
}

pub type RequestHead = Head<RequestLine>;

pub type ResponseHead = Head<StatusLine>;

// A header takes four numbers of `slots`: where its name is, the name's length, where its value is, the value's length.
pub fn read<L: StartLine>(s: &[u8], slots: &mut [usize], settings: Settings) -> Head<L>
    ensures { Told (L.head settings (length slots.old / 4) s.now) result.end result.line result.count slots.old slots.new }
{
    let read = L::read(s, settings);
    let line = read.line;
    match read.end {
        Ok(next) => {
            let block = blocks::header_block(s, next, slots, L::line_settings(settings));
            Head {
                end: block.end,
                line,
                count: block.count,
            }
        }
        Err(unread) => Head {
            end: Err(unread),
            line,
            count: 0,
        },
    }
}

pub fn headers(s: &[u8], slots: &mut [usize]) -> Block
    ensures { BlockTold (block default (length slots.old / 4) [] s.now 0) result slots.old slots.new }
{
    blocks::header_block(s, 0, slots, LineSettings::default())
}
