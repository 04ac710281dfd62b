// The input's bytes. Where they can't be read, standard error says why and what to do.
ghost use Rattle.std.specs.Prelude.{◌≤◌, length, IfOk};

use crate::system::{tell, tell_why, whole};
use std::fs::File;
use std::io::{ErrorKind, Read, Stdin};
use std::{fs, io};

// What the system answers where a name is longer than any path.
const NAME_TOO_LONG: i32 = 36;

// Where the input comes from.
#[derive(Drop)]
pub enum Source<'a> {
    Standard(Stdin),
    // a file, and its name
    Opened(File, &'a [u8]),
}

// Why the input was not read: the system refused, or there are more bytes than the buffer holds.
#[derive(Drop)]
pub enum Unreadable {
    Refused(io::Error),
    TooLong,
}

impl From<io::Error> for Unreadable {
    fn from(error: io::Error) -> Self {
        Unreadable::Refused(error)
    }
}

// The file that an argument names, or standard input where none does. None where standard error says why not.
pub fn open<'a>(rt: &HostRuntime, file: Option<usize>, room: &'a mut [u8]) -> Option<Source<'a>> {
    match file {
        Some(at) => open_named(rt, whole(rt, at, room)),
        None => Some(Source::Standard(rt.stdin())),
    }
}

// A name that is none is longer than any path.
fn open_named<'a>(rt: &HostRuntime, name: Option<&'a [u8]>) -> Option<Source<'a>> {
    let Some(name) = name else {
        let error = io::Error::from_raw_os_error(NAME_TOO_LONG);
        refuse(rt, b"the file's name", error);
        return None;
    };
    match opened(rt, name) {
        Ok(file) => Some(Source::Opened(file, name)),
        Err(error) => {
            refuse(rt, name, error);
            None
        }
    }
}

// A path of std is UTF-8.
fn opened(rt: &HostRuntime, name: &[u8]) -> io::Result<File> {
    match std::str::from_utf8(name) {
        Ok(path) => fs::open(rt, path),
        Err(_) => Err(io::Error::new(ErrorKind::InvalidFilename, "the name is not UTF-8")),
    }
}

// Reads to the end of the input, which must come before that of the buffer, and answers its bytes.
pub fn read<'b>(source: &mut Source, buffer: &'b mut [u8]) -> Result<&'b [u8], Unreadable> {
    let mut n = 0;
    // each reading goes on where the one before it ended, so no `for` counts them
    while n < buffer.len() {
        match read_some(source, &mut buffer[n..])? {
            0 => return Ok(&buffer[..n]),
            more => n += more,
        }
    }
    Err(Unreadable::TooLong)
}

fn read_some(source: &mut Source, rest: &mut [u8]) -> io::Result<usize>
    ensures { IfOk result (λ n. n ≤ length rest.new) }
{
    match source {
        Source::Standard(stdin) => stdin.read(rest),
        Source::Opened(file, _) => file.read(rest),
    }
}

// Says what the system has against reading what was opened.
pub fn refuse_read(rt: &HostRuntime, source: &Source, error: io::Error) {
    match source {
        Source::Opened(_, name) => refuse(rt, name, error),
        Source::Standard(_) => {
            tell(rt, b"headread: ");
            tell_why(rt, b"standard input", error);
            tell(
                rt,
                b"headread: hand over the input, as in headread request < FILE, or name a file\n",
            );
        }
    }
}

// Says what the system has against a file or its name.
fn refuse(rt: &HostRuntime, what: &[u8], error: io::Error) {
    tell(rt, b"headread: ");
    tell_why(rt, what, error);
    tell(
        rt,
        b"headread: name a file that you may read, or none to read standard input\n",
    );
}

pub fn refuse_long(rt: &HostRuntime) {
    tell(
        rt,
        b"headread: the input has more than 65536 bytes
headread: give it the start alone, which head -c 65536 FILE writes
",
    );
}
