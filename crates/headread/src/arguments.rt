// The arguments: request|response|headers|chunk [--raw] [FILE], or --plain request|response|headers [FILE]; before them, settings.
ghost use Rattle.std.specs.Prelude.{◌≡◌, ◌+◌, ◌≤◌};

use crate::settings;
use crate::settings::Taken;
use crate::system::{argument, is_there, room, tell};
use report::Audience;
use rules::Settings;
use wording::Kind;

// A report for a person or for a script, or the plain form.
#[derive(Clone, Copy)]
pub enum Mode {
    Report(Audience),
    Plain,
}

// What to read, what to print of it, with which settings, and which argument names the file, if one does.
#[derive(Clone, Copy)]
pub struct Call {
    pub kind: Kind,
    pub mode: Mode,
    pub settings: Settings,
    pub file: Option<usize>,
}

impl Call {
    // With standard input, until an argument names a file.
    fn new(kind: Kind, mode: Mode, settings: Settings) -> Call {
        Call {
            kind,
            mode,
            settings,
            file: None,
        }
    }
}

// The arguments from the next one on; the program's own name is argument 0.
#[derive(Clone, Copy)]
struct Arguments<'a> {
    rt: &'a HostRuntime,
    next: usize,
}

// None where the call was refused with a message, here and in what is called.
pub fn asked(rt: &HostRuntime) -> Option<Call> {
    let Taken { settings, next } = settings::first(rt);
    Arguments { rt, next }.call(settings)
}

impl<'a> Arguments<'a> {
    // What the arguments behind the settings ask for.
    fn call(self, settings: Settings) -> Option<Call>
        requires { self.next ≤ 8 }
    {
        if self.next_is(b"--plain") {
            return self.behind().plain(settings);
        }
        let Some(kind) = self.kind() else {
            return self.refused_word(
                b"headread: behind the settings, if any, must stand request, response, headers or chunk, or --plain",
            );
        };
        let behind = self.behind();
        if behind.next_is(b"--raw") {
            behind
                .behind()
                .with_file(Call::new(kind, Mode::Report(Audience::Script), settings))
        } else {
            behind.with_file(Call::new(kind, Mode::Report(Audience::Person), settings))
        }
    }

    fn plain(self, settings: Settings) -> Option<Call>
        requires { self.next ≤ 9 }
    {
        match self.kind() {
            Some(Kind::Chunk) => self.refused(b"headread: a chunk size line has no plain form\n"),
            Some(kind) => self
                .behind()
                .with_file(Call::new(kind, Mode::Plain, settings)),
            None => self.refused_word(
                b"headread: behind --plain must stand request, response or headers",
            ),
        }
    }

    // A setting is for the kinds that it changes.
    fn with_file(self, call: Call) -> Option<Call>
        requires { self.next ≤ 10 }
    {
        let settings = call.settings;
        let of_requests = settings.ascii_targets | settings.spaces_in_request_line;
        let of_responses = settings.spaces_in_status_line
            | settings.spaces_after_name
            | settings.multiline_headers;
        let of_both = settings.space_before_first_name
            | settings.ignore_invalid_headers_in_requests
            | settings.ignore_invalid_headers_in_responses;
        match call.kind {
            Kind::Request if of_responses => self.refused(
                b"headread: --spaces-in-status-line, --spaces-after-name and --multiline-headers are for responses: a request has none of them\n",
            ),
            Kind::Response if of_requests => self.refused(
                b"headread: --ascii-targets and --spaces-in-request-line are for requests: a response has neither\n",
            ),
            Kind::Headers | Kind::Chunk if of_requests | of_responses | of_both => self.refused(
                b"headread: settings are for requests and responses: headers alone and a chunk size line have none\n",
            ),
            _ => self.file(call),
        }
    }

    // The file is the last argument, and may be left out.
    fn file(self, call: Call) -> Option<Call>
        requires { self.next ≤ 10 }
    {
        if !self.is_there() {
            return Some(call);
        }
        if self.word(&mut room()).starts_with(b"-") {
            return self.refused(
                b"headread: settings stand first, then --plain, and --raw behind the kind; a file whose name starts with - is given as ./-\n",
            );
        }
        if self.behind().is_there() {
            return self.refused(
                b"headread: too many arguments: one file is read, and its name stands last\n",
            );
        }
        Some(Call {
            file: Some(self.next),
            ..call
        })
    }

    // The same without the next one.
    fn behind(self) -> Arguments<'a>
        requires { self.next ≤ 10 }
        ensures { result.next ≡ self.entry.next + 1 }
    {
        Arguments {
            rt: self.rt,
            next: self.next + 1,
        }
    }

    fn kind(self) -> Option<Kind> {
        match self.word(&mut room()) {
            b"request" => Some(Kind::Request),
            b"response" => Some(Kind::Response),
            b"headers" => Some(Kind::Headers),
            b"chunk" => Some(Kind::Chunk),
            _ => None,
        }
    }

    fn next_is(self, option: &[u8]) -> bool {
        self.word(&mut room()) == option
    }

    fn word(self, room: &mut [u8]) -> &[u8] {
        argument(self.rt, self.next, room)
    }

    fn is_there(self) -> bool {
        is_there(self.rt, self.next)
    }

    // Says what must stand there, and which word does.
    fn refused_word(self, why: &[u8]) -> Option<Call> {
        let mut room = room();
        let word = self.word(&mut room);
        tell(self.rt, why);
        if !word.is_empty() {
            tell(self.rt, b"; here stands ");
            tell(self.rt, word);
        }
        self.refused(b"\n")
    }

    fn refused(self, why: &[u8]) -> Option<Call> {
        tell(self.rt, why);
        tell(
            self.rt,
            b"usage: headread [SETTING ..] request|response|headers|chunk [--raw] [FILE]
       headread [SETTING ..] --plain request|response|headers [FILE]
  says what stands at the start of FILE, or of standard input where no file is named
  --raw    one line a field with tabs between, for scripts
  --plain  the head in its plain form: CR LF at each line's end, one space before each value; what stands behind
           the head is not written; a head with a value over several lines has none
settings, each for the messages that it names and refused with others
  --ascii-targets            requests: a target is visible ASCII alone
  --spaces-in-request-line   requests: several spaces may part the parts of the request line
  --spaces-in-status-line    responses: several spaces may part the parts of the status line
  --space-before-first-name  requests and responses: blanks may stand before the first header's name
  --spaces-after-name        responses: blanks may stand between a header's name and its colon
  --multiline-headers        responses: a line that begins with a blank goes on with the value before it
  --ignore-invalid-headers   requests and responses: a line that is no header is passed over
",
        );
        None
    }
}
