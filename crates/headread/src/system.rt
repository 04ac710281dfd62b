// What the system gives and takes in words: the arguments, and what standard error is told.
use std::env::{Env, FillError};
use std::io;

// Zeros, which hold any path.
pub fn room() -> [u8; 4096] {
    [0; 4096]
}

// An argument, put at the start of this room. None where there is no such argument, or it is longer.
pub fn whole<'a>(rt: &HostRuntime, at: usize, room: &'a mut [u8]) -> Option<&'a [u8]> {
    let n = rt.arg(at, room).ok()?;
    Some(&room[..n])
}

// The same, with no byte in place of none.
pub fn argument<'a>(rt: &HostRuntime, at: usize, room: &'a mut [u8]) -> &'a [u8] {
    whole(rt, at, room).unwrap_or(b"")
}

// Whether there is such an argument, however long.
pub fn is_there(rt: &HostRuntime, at: usize) -> bool {
    !matches!(rt.arg(at, &mut []), Err(FillError::NotPresent))
}

// Where standard error can't be written, nobody can be told.
pub fn tell(rt: &HostRuntime, text: &[u8]) {
    let _ = rt.stderr().write_all(text);
}

// Tells what the system has against something.
pub fn tell_why(rt: &HostRuntime, what: &[u8], error: io::Error) {
    tell(rt, what);
    tell(rt, b": ");
    let written = format!(in rt.alloc(); "{error}");
    match written {
        Ok(text) => tell(rt, without_number(text.as_str()).as_bytes()),
        // with no memory to cut it off in, the number is told too
        Err(_) => {
            let _ = rt.eprint(error);
        }
    }
    tell(rt, b"\n");
}

// The system's own words. std puts the error's number behind them.
fn without_number(text: &str) -> &str {
    text.split_once(" (os error ")
        .map_or(text, |(words, _)| words)
}
