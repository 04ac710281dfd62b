// The answers and the settings as numbers, for programs in C.
#![tactic(auto)]

ghost use Rattle.std.specs.Prelude.{◌≡◌, ◌≤◌};
ghost use Rattle.numbers.specs.Numbers.{settings_of, error_number, kind_of, position_of, bit_of, placed, request_numbers, response_numbers};

use heads::{RequestHead, ResponseHead};
use parts::{Error, Passed, Piece, Unread};
use rules::Settings;

// What a piece that is not known, or is empty, is told as.
const NOWHERE: Piece = Piece {
    offset: 0,
    length: 0,
};

// The bits by which C asks for settings, as include/headreader.h has them.
const SPACES_AFTER_NAME: u32 = 1;

const MULTILINE_HEADERS: u32 = 2;

const SPACES_IN_REQUEST_LINE: u32 = 4;

const SPACES_IN_STATUS_LINE: u32 = 8;

const SPACE_BEFORE_FIRST_NAME: u32 = 16;

const IGNORE_IN_RESPONSES: u32 = 32;

const IGNORE_IN_REQUESTS: u32 = 64;

const ASCII_TARGETS: u32 = 128;

// The number of an error, since C has no enum of ours.
pub fn error_number(e: Error) -> u32
    ensures { result ≡ error_number e }
{
    match e {
        Error::HeaderName => 2,
        Error::HeaderValue => 3,
        Error::NewLine => 4,
        Error::Status => 5,
        Error::Token => 6,
        Error::TooManyHeaders => 7,
        Error::Version => 8,
    }
}

// 0 for complete, 1 for incomplete, and a number from 2 on for each error, since C has no Result.
pub fn kind(end: Passed) -> u32
    ensures { result ≡ kind_of end }
{
    match end {
        Ok(_) => 0,
        Err(Unread::More) => 1,
        Err(Unread::Bad(fault)) => error_number(fault.error),
    }
}

// The position behind what was read; 0 where it is not complete yet; and where it lies, if there is an error.
pub fn position(end: Passed) -> usize
    ensures { result ≡ position_of end }
{
    match end {
        Ok(next) => next,
        Err(Unread::More) => 0,
        Err(Unread::Bad(fault)) => fault.position,
    }
}

// The bit where something is known, else 0.
fn bit<T: Copy>(known: Option<T>, bit: usize) -> usize
    ensures value { result ≡ bit_of known bit }
    ensures upper_bound { result ≤ bit }
{
    if known.is_some() { bit } else { 0 }
}

// An empty piece is told as nowhere.
fn placed_piece(p: Piece) -> Piece
    ensures { result ≡ placed p }
{
    if p.length == 0 { NOWHERE } else { p }
}

pub fn put_request(out: &mut [usize; 8], head: RequestHead)
    ensures { out.new ≡ request_numbers head }
{
    let line = head.line;
    let method = line.method.unwrap_or(NOWHERE);
    let target = line.target.unwrap_or(NOWHERE);
    *out = [
        position(head.end),
        head.count,
        bit(line.method, 1) + bit(line.target, 2) + bit(line.version, 4),
        method.offset,
        method.length,
        target.offset,
        target.length,
        line.version.unwrap_or(0),
    ];
}

pub fn put_response(out: &mut [usize; 8], head: ResponseHead)
    ensures { out.new ≡ response_numbers head }
{
    let line = head.line;
    let reason = placed_piece(line.reason.unwrap_or(NOWHERE));
    *out = [
        position(head.end),
        head.count,
        bit(line.version, 4) + bit(line.code, 8) + bit(line.reason, 16),
        line.version.unwrap_or(0),
        line.code.unwrap_or(0),
        reason.offset,
        reason.length,
        0,
    ];
}

// What each bit asks for; a bit without a meaning has no effect.
#[tactic(auto, using(crate::specs::Laws::all_asked))]
pub fn settings_of(bits: u32) -> Settings
    ensures { result ≡ settings_of bits }
{
    Settings {
        ascii_targets: bits & ASCII_TARGETS != 0,
        spaces_in_request_line: bits & SPACES_IN_REQUEST_LINE != 0,
        spaces_in_status_line: bits & SPACES_IN_STATUS_LINE != 0,
        space_before_first_name: bits & SPACE_BEFORE_FIRST_NAME != 0,
        spaces_after_name: bits & SPACES_AFTER_NAME != 0,
        multiline_headers: bits & MULTILINE_HEADERS != 0,
        ignore_invalid_headers_in_requests: bits & IGNORE_IN_REQUESTS != 0,
        ignore_invalid_headers_in_responses: bits & IGNORE_IN_RESPONSES != 0,
    }
}
