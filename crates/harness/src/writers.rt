// The writers: they take the numbers that hr_request, hr_response or hr_headers answered.
use blocks::Block;
use heads::Head;
use parts::{Passed, Piece, Unread};
use requestline::RequestLine;
use statusline::StatusLine;
use writer::Unwritten;

// 0 for written and 1 for too little room, with the number of bytes; 2 for what cannot be written, 3 for what is too long: C has no Result.
fn told(answer: Result<usize, Unwritten>, size: &mut [usize; 1]) -> u32 {
    let (told, n) = match answer {
        Ok(n) => (0, n),
        Err(Unwritten::Needs(n)) => (1, n),
        Err(Unwritten::Unwritable) => (2, 0),
        Err(Unwritten::TooLong) => (3, 0),
    };
    size[0] = n;
    told
}

// A reading that was not complete is not written, whatever else it was.
fn end(kind: u32, position: usize) -> Passed {
    if kind == 0 {
        return Ok(position);
    }
    Err(Unread::More)
}

fn known<T: Copy>(known: usize, bit: usize, value: T) -> Option<T> {
    if known & bit == 0 {
        return None;
    }
    Some(value)
}

fn piece(offset: usize, length: usize) -> Piece {
    Piece { offset, length }
}

// A function for each kind, since C has a name for each.
#[unsafe(no_mangle)]
pub extern "C" fn harness_plain_request(
    buf: &[u8],
    slots: &[usize],
    kind: u32,
    answer: &[usize; 8],
    out: &mut [u8],
    size: &mut [usize; 1],
) -> u32 {
    let bits = answer[2];
    let head = Head {
        end: end(kind, answer[0]),
        line: RequestLine {
            method: known(bits, 1, piece(answer[3], answer[4])),
            target: known(bits, 2, piece(answer[5], answer[6])),
            version: known(bits, 4, answer[7]),
        },
        count: answer[1],
    };
    told(writer::plain_form(buf, head, slots, out), size)
}

#[unsafe(no_mangle)]
pub extern "C" fn harness_plain_response(
    buf: &[u8],
    slots: &[usize],
    kind: u32,
    answer: &[usize; 8],
    out: &mut [u8],
    size: &mut [usize; 1],
) -> u32 {
    let bits = answer[2];
    let head = Head {
        end: end(kind, answer[0]),
        line: StatusLine {
            version: known(bits, 4, answer[3]),
            code: known(bits, 8, answer[4]),
            reason: known(bits, 16, piece(answer[5], answer[6])),
        },
        count: answer[1],
    };
    told(writer::plain_form(buf, head, slots, out), size)
}

#[unsafe(no_mangle)]
pub extern "C" fn harness_plain_headers(
    buf: &[u8],
    slots: &[usize],
    kind: u32,
    answer: &[usize; 8],
    out: &mut [u8],
    size: &mut [usize; 1],
) -> u32 {
    let block = Block {
        end: end(kind, answer[0]),
        count: answer[1],
    };
    told(writer::plain_form(buf, block, slots, out), size)
}
