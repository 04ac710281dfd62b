// What a head is made of: what can be wrong, pieces and answers, line ends and empty lines.
#![tactic(auto)]

ghost use Rattle.std.specs.Prelude.{◌≡◌, MatchResult};
ghost use Rattle.rules.specs.Rules.{default};
ghost use Rattle.parts.specs.Answers.{passed, refusal};
ghost use Rattle.parts.specs.Byte.{Is, IsPast};
ghost use Rattle.parts.specs.LineEnd.{line_end};
ghost use Rattle.parts.specs.EmptyLines.{empty_lines};

// What can be wrong with a head.
#[derive(Clone, Copy)]
pub enum Error {
    HeaderName,
    HeaderValue,
    NewLine,
    Status,
    Token,
    TooManyHeaders,
    Version,
}

// An error, and the position of the byte that decided it; for TooManyHeaders, of the first byte of the header that had no slot.
#[derive(Clone, Copy)]
pub struct Fault {
    pub error: Error,
    pub position: usize,
}

// A part of the input.
#[derive(Clone, Copy)]
pub struct Piece {
    pub offset: usize,
    pub length: usize,
}

// Why a part was not read: the input ends within it; or a byte of it is wrong.
#[derive(Clone, Copy)]
pub enum Unread<F = Fault> {
    More,
    Bad(F),
}

impl Unread {
    // That the byte at a position is wrong.
    pub fn bad(error: Error, position: usize) -> Unread
        ensures { result ≡ refusal error position }
    {
        Unread::Bad(Fault { error, position })
    }
}

// What reading a part that has no value comes to: the position behind it.
pub type Passed = Result<usize, Unread>;

// What reading a part that has a value comes to: the value, and the position behind it.
pub type Read<T> = Result<(T, usize), Unread>;

// The byte at a position. Here and above the input and a position in it stay two parameters: the definitions read a list from a position, and
// a cursor that holds both would be no plainer.
pub fn byte<F>(s: &[u8], at: usize) -> Result<u8, Unread<F>>
    ensures { MatchResult result (Is s.now at) (IsPast s.now at) }
{
    if at < s.len() {
        Ok(s[at])
    } else {
        Err(Unread::More)
    }
}

// CR LF or LF. What stands there instead is the error of the place.
pub fn line_end(s: &[u8], at: usize, error: Error) -> Passed
    ensures { passed result ≡ line_end default error s.now at }
{
    let b = byte(s, at)?;
    if b == 10 {
        return Ok(at + 1);
    }
    if b != 13 {
        return Err(Unread::bad(error, at));
    }
    let next = at + 1;
    if byte(s, next)? == 10 {
        Ok(next + 1)
    } else {
        Err(Unread::bad(error, next))
    }
}

// Any number of empty lines.
pub fn empty_lines(s: &[u8], at: usize) -> Passed
    ensures { passed result ≡ empty_lines default s.now at }
{
    let mut i = at;
    // an empty line is one byte or two, so no `for` goes through them
    loop {
        let b = byte(s, i)?;
        if b == 10 {
            i += 1;
            continue;
        }
        if b != 13 {
            return Ok(i);
        }
        let next = i + 1;
        if byte(s, next)? != 10 {
            return Err(Unread::bad(Error::NewLine, next));
        }
        i = next + 1;
    }
}
