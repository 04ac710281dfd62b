// Heads one behind another: each is read from the end of the one before it. They demand nothing of the caller.
#![tactic(auto)]

ghost use Rattle.std.specs.Prelude.{◌≡◌, ℕ, List, ◌/◌, ◌≤◌, length, drop};
ghost use Rattle.rules.specs.declared.Settings.{Settings as Asked};
ghost use Rattle.rules.specs.Settings.{request_rules, response_rules};
ghost use Rattle.grammar.specs.Fields.{Field};
ghost use Rattle.grammar.specs.Message.{RequestLine as SaidOfRequest, StatusLine as SaidOfResponse, IsRequestHead, IsResponseHead};
ghost use Rattle.rowread.specs.Row.{used, RowPromise};
ghost use Rattle.rowread.specs.Reading.{Next, WrongBefore, stop_of};

use heads::StartLine;
use parts::{Fault, Passed, Unread};
use requestline::RequestLine;
use rowread::{RowRead, Stop};
use rules::Settings;
use statusline::StatusLine;

// A start line whose heads may stand one behind another.
pub trait InRow: StartLine {
    // what the grammar has a start line say
    ghost Said: { Type 0 };

    ghost is_head: { Asked → List ℕ → Said → List Field → Type 0 };

    // The end of the head that starts at `at`, from there on.
    fn next(s: &[u8], at: usize, slots: &mut [usize], settings: Settings) -> Passed
        requires { at ≤ length s.now }
        ensures next { Next (is_head settings) (Self.head settings) (length slots.old / 4) (drop at s.now) result }
        ensures slots_after { slots.new ≡ used (Self.head settings) (length slots.old / 4) (drop at s.now) slots.old }
        ensures slots_len_unchanged { length slots.new ≡ length slots.old };
}

impl InRow for RequestLine {
    ghost Said = { SaidOfRequest };

    ghost is_head = { λ settings. IsRequestHead (request_rules settings) };

    fn next(s: &[u8], at: usize, slots: &mut [usize], settings: Settings) -> Passed {
        calls::request(&s[at..], slots, settings).end
    }
}

impl InRow for StatusLine {
    ghost Said = { SaidOfResponse };

    ghost is_head = { λ settings. IsResponseHead (response_rules settings) };

    fn next(s: &[u8], at: usize, slots: &mut [usize], settings: Settings) -> Passed {
        calls::response(&s[at..], slots, settings).end
    }
}

// Why the reading stops at `at`, behind which no whole head stands. The position of an error becomes one of the whole input.
fn stop(unread: Unread, at: usize) -> Stop
    requires { WrongBefore 0x1_0000_0000_0000_0000 at unread }
    ensures { result ≡ stop_of at unread }
{
    match unread {
        Unread::More => Stop::More,
        Unread::Bad(fault) => Stop::Bad(Fault {
            error: fault.error,
            position: at + fault.position,
        }),
    }
}

// Puts the position behind each head into `ends`. The slots are used for each head in turn, and are left as the last call left them.
#[tactic(auto, using(rowread::proofs::Reading::readings))]
pub fn read<L: InRow>(
    s: &[u8],
    slots: &mut [usize],
    ends: &mut [usize],
    settings: Settings,
) -> RowRead
    ensures { RowPromise (L.is_head settings) (L.head settings) (length slots.old / 4) s.now slots.old ends.old result slots.new ends.new }
{
    let mut at = 0;
    for (count, end) in ends.iter_mut().enumerate() {
        if s.len() <= at {
            return RowRead {
                count,
                end: at,
                stop: Stop::End,
            };
        }
        match L::next(s, at, slots, settings) {
            Ok(n) => {
                at += n;
                *end = at;
            }
            Err(unread) => {
                return RowRead {
                    count,
                    end: at,
                    stop: stop(unread, at),
                };
            }
        }
    }
    let stop = if at < s.len() { Stop::Full } else { Stop::End };
    RowRead {
        count: ends.len(),
        end: at,
        stop,
    }
}
