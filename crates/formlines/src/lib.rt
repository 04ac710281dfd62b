// The plain form of what was read, line by line, each part put behind the one before it.
#![tactic(auto, using(crate::specs::Lines::lined))]

ghost use Rattle.std.specs.Prelude.{ℕ, List, ◌≡◌, ◌+◌, ◌≤◌, length};
ghost use Rattle.plain.specs.Plain.{plain_version, plain_code, plain_field, plain_fields, plain_request_line, plain_status_line};
ghost use Rattle.agreement.specs.Places.{held};
ghost use Rattle.agreement.specs.Known.{fields_in};
ghost use Rattle.output.specs.Put.{Adds};
ghost use Rattle.startline.specs.Answers.{number_of};
ghost use Rattle.places.specs.Lies.{Lies, AtMost, SlotsLie, bytes_of, one_point, request_of, status_of};
ghost use Rattle.formlines.specs.Forms.{request_form, response_form, block_form};
ghost use Rattle.formlines.specs.Lines.{HeaderLies, field_of};

use blocks::Block;
use fields::Header;
use heads::Head;
use output::put;
use parts::Piece;
use places::Writable;
use requestline::RequestLine;
use statusline::StatusLine;

// Here and below the room and a position in it stay two parameters, since `Adds` and `output::put` are of both.
fn piece(out: &mut [u8], at: usize, s: &[u8], p: Piece) -> usize
    requires { p.offset + p.length ≤ length s.now }
    ensures { Adds (held s.now p) at out.old result out.new }
{
    put(out, at, &s[p.offset..p.offset + p.length])
}

fn known_piece(out: &mut [u8], at: usize, s: &[u8], known: Option<Piece>) -> usize
    requires { Lies s.now known }
    ensures { Adds (bytes_of s.now known) at out.old result out.new }
{
    match known {
        Some(p) => piece(out, at, s, p),
        None => at,
    }
}

fn version(out: &mut [u8], at: usize, known: Option<usize>) -> usize
    requires { AtMost 9 known }
    ensures { Adds (plain_version (one_point (number_of known))) at out.old result out.new }
{
    let minor = known.unwrap_or(0);
    put(
        out,
        at,
        &[b'H', b'T', b'T', b'P', b'/', b'1', b'.', b'0' + minor as u8],
    )
}

fn code(out: &mut [u8], at: usize, known: Option<usize>) -> usize
    requires { AtMost 999 known }
    ensures { Adds (plain_code (number_of known)) at out.old result out.new }
{
    let n = known.unwrap_or(0);
    put(
        out,
        at,
        &[
            b'0' + (n / 100) as u8,
            b'0' + (n / 10 % 10) as u8,
            b'0' + (n % 10) as u8,
        ],
    )
}

fn field(out: &mut [u8], at: usize, s: &[u8], header: Header) -> usize
    requires { HeaderLies s.now header }
    ensures { Adds (plain_field (field_of s.now header)) at out.old result out.new }
{
    let colon = piece(out, at, s, header.name);
    let space = put(out, colon, b":");
    let start = put(out, space, b" ");
    let end = piece(out, start, s, header.value);
    put(out, end, b"\r\n")
}

pub fn fields(out: &mut [u8], at: usize, s: &[u8], slots: &[usize], count: usize) -> usize
    requires { SlotsLie s.now count slots.now }
    ensures { Adds (plain_fields (fields_in s.now count slots.now)) at out.old result out.new }
{
    let mut next = at;
    for index in 0..count {
        next = field(out, next, s, places::header(slots, index));
    }
    put(out, next, b"\r\n")
}

fn request_line(out: &mut [u8], at: usize, s: &[u8], line: RequestLine) -> usize
    requires lies { Lies s.now line.method }
    requires lies_2 { Lies s.now line.target }
    requires at_most { AtMost 9 line.version }
    ensures { Adds (plain_request_line (request_of s.now line)) at out.old result out.new }
{
    let next = known_piece(out, at, s, line.method);
    let next = put(out, next, b" ");
    let next = known_piece(out, next, s, line.target);
    let next = put(out, next, b" ");
    let next = version(out, next, line.version);
    put(out, next, b"\r\n")
}

fn status_line(out: &mut [u8], at: usize, s: &[u8], line: StatusLine) -> usize
    requires at_most { AtMost 9 line.version }
    requires at_most_2 { AtMost 999 line.code }
    requires lies { Lies s.now line.reason }
    ensures { Adds (plain_status_line (status_of s.now line)) at out.old result out.new }
{
    let next = version(out, at, line.version);
    let next = put(out, next, b" ");
    let next = code(out, next, line.code);
    let next = put(out, next, b" ");
    let next = known_piece(out, next, s, line.reason);
    put(out, next, b"\r\n")
}

// What was read, and its plain form.
pub trait Plain: Writable {
    // by the input and the slots
    ghost form: { List ℕ → Self → List ℕ → List ℕ };

    // Puts the form at a position if it ends within `out`. Answers the position behind it, and usize::MAX where there is no such number.
    fn put(self, out: &mut [u8], at: usize, s: &[u8], slots: &[usize]) -> usize
        requires { Self.lies s.now self slots.now }
        ensures { Adds (form s.now self slots.now) at out.old result out.new };
}

impl Plain for Head<RequestLine> {
    ghost form = { request_form };

    fn put(self, out: &mut [u8], at: usize, s: &[u8], slots: &[usize]) -> usize {
        let next = request_line(out, at, s, self.line);
        fields(out, next, s, slots, self.count)
    }
}

impl Plain for Head<StatusLine> {
    ghost form = { response_form };

    fn put(self, out: &mut [u8], at: usize, s: &[u8], slots: &[usize]) -> usize {
        let next = status_line(out, at, s, self.line);
        fields(out, next, s, slots, self.count)
    }
}

impl Plain for Block {
    ghost form = { block_form };

    fn put(self, out: &mut [u8], at: usize, s: &[u8], slots: &[usize]) -> usize {
        fields(out, at, s, slots, self.count)
    }
}
