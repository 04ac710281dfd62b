// Heads in a row.
use requestline::RequestLine;
use rowread::{RowRead, Stop};
use statusline::StatusLine;

// Into `out` go how many heads were read, the position behind them, and that of an error, else 0. The answer is 0 where all of the input was
// read, 1 where the next head is incomplete, a number from 2 on for its error, and 10 where there is no room for one more end: C has
// no enum of ours.
fn told(row: RowRead, out: &mut [usize; 3]) -> u32 {
    out[0] = row.count;
    out[1] = row.end;
    out[2] = 0;
    match row.stop {
        Stop::End => 0,
        Stop::More => 1,
        Stop::Bad(fault) => {
            out[2] = fault.position;
            numbers::error_number(fault.error)
        }
        Stop::Full => 10,
    }
}

#[unsafe(no_mangle)]
pub extern "C" fn harness_requests(
    buf: &[u8],
    slots: &mut [usize],
    ends: &mut [usize],
    out: &mut [usize; 3],
    settings: u32,
) -> u32 {
    told(
        rows::read::<RequestLine>(buf, slots, ends, numbers::settings_of(settings)),
        out,
    )
}

#[unsafe(no_mangle)]
pub extern "C" fn harness_responses(
    buf: &[u8],
    slots: &mut [usize],
    ends: &mut [usize],
    out: &mut [usize; 3],
    settings: u32,
) -> u32 {
    told(
        rows::read::<StatusLine>(buf, slots, ends, numbers::settings_of(settings)),
        out,
    )
}
