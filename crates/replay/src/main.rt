// Replays recorded answers of httparse: reads rows from standard input, asks Headreader the same, and says how many differ.
#![tactic(auto)]

ghost use Rattle.std.specs.Prelude.{◌≡◌, ◌≤◌, length};

mod row;

use row::Row;
use std::io;
use std::io::{Read, Stdin};

// The most headers that a row has slots for, and the numbers behind which none is ever written.
const MOST_HEADERS: usize = 16;

const NUMBERS: usize = 72;

// The longest input of a row.
const LONGEST: usize = 1024;

// The most blocks that are read.
const MOST_BLOCKS: usize = 1000;

// What every number of the slots is before a call.
const UNTOUCHED: usize = 7777777;

// The calls of Headreader.
#[derive(Clone, Copy)]
enum Call {
    Request,
    Response,
    Headers,
    ChunkSize,
}

// The call that a row's first number names.
impl From<u64> for Call {
    fn from(number: u64) -> Call {
        match number {
            0 => Call::Request,
            1 => Call::Response,
            2 => Call::Headers,
            _ => Call::ChunkSize,
        }
    }
}

// The answer of a call with these settings.
fn ask(call: Call, settings: u32, input: &[u8], slots: &mut [usize], out: &mut [usize; 8]) -> u32 {
    match call {
        Call::Request => headreader::hr_request(input, slots, out, settings),
        Call::Response => headreader::hr_response(input, slots, out, settings),
        Call::Headers => headreader::hr_headers(input, slots, out),
        Call::ChunkSize => headreader::hr_chunk_size(input, out),
    }
}

// Whether Headreader answers what a row has: call, settings, slots, input, kind, eight numbers, and the slots written.
fn agrees(bytes: &[u8]) -> bool {
    let mut row = Row::new(bytes);
    let call = Call::from(row.number());
    // settings are eight bits
    let Ok(settings) = u8::try_from(row.number()) else {
        return false;
    };
    let Ok(lent) = usize::try_from(row.number()) else {
        return false;
    };
    if MOST_HEADERS < lent {
        return false;
    }
    let mut space = [0u8; LONGEST];
    let input = row.input(&mut space);
    let kind = row.number();
    let mut numbers = [UNTOUCHED; NUMBERS];
    let mut out = [UNTOUCHED; 8];
    let end = lent * 4 + 3;
    let told = ask(
        call,
        u32::from(settings),
        input,
        &mut numbers[..end],
        &mut out,
    );
    if kind != u64::from(told) || !row.has(&out) {
        return false;
    }
    let written = match call {
        Call::Request | Call::Response | Call::Headers => four(out[1]),
        Call::ChunkSize => 0,
    };
    row.has(&numbers[..written]) && numbers[written..].iter().all(|n| *n == UNTOUCHED)
}

// Four numbers a header.
fn four(headers: usize) -> usize
    ensures { result ≤ 72 }
{
    if MOST_HEADERS < headers {
        return NUMBERS;
    }
    headers * 4
}

// How many rows were replayed and how many differ.
#[derive(Clone, Copy, Default)]
struct Tally {
    rows: u64,
    differ: u64,
}

// Replays the whole rows of a block: the position where the first unfinished one starts.
fn replay_rows(s: &[u8], tally: &mut Tally) -> usize
    ensures { result ≤ length s.now }
{
    let Some(end) = s.iter().rposition(|b| *b == b'\n') else {
        return 0;
    };
    for row in s[..end].split(|b| *b == b'\n') {
        tally.rows = tally.rows.wrapping_add(1);
        if !agrees(row) {
            tally.differ = tally.differ.wrapping_add(1);
        }
    }
    end + 1
}

// Reads until there is no room or nothing comes: how many bytes came.
fn fill(mut stdin: Stdin, room: &mut [u8]) -> usize
    ensures { (result ≤ length room.old) × (length room.new ≡ length room.old) }
{
    let mut filled = 0;
    // each reading goes on where the one before it ended, so no `for` counts them
    while filled < room.len() {
        // what can't be read is no more than what has ended
        let more = stdin.read(&mut room[filled..]).unwrap_or(0);
        if more == 0 {
            break;
        }
        filled += more;
    }
    filled
}

fn main(rt: HostRuntime) -> io::Result<()> {
    let mut buffer = [0u8; 65536];
    let mut tally = Tally::default();
    let mut kept: usize = 0;
    for _ in 0..MOST_BLOCKS {
        if buffer.len() <= kept {
            break;
        }
        let got = fill(rt.stdin(), &mut buffer[kept..]);
        let filled = kept + got;
        let next = replay_rows(&buffer[0..filled], &mut tally);
        buffer.copy_within(next..filled, 0);
        kept = filled - next;
        if got == 0 {
            break;
        }
    }
    println!(rt; "{} answers replayed, {} differ", tally.rows, tally.differ)
}
