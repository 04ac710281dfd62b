// The settings, which stand before all other arguments, in any order.
ghost use Rattle.std.specs.Prelude.{◌≤◌};

use crate::system::{argument, room};
use rules::Settings;

// How many settings there are.
const SETTINGS: usize = 7;

// What was asked for, and which argument is the first that is no setting.
#[derive(Clone, Copy)]
pub struct Taken {
    pub settings: Settings,
    pub next: usize,
}

pub fn first(rt: &HostRuntime) -> Taken
    ensures { result.next ≤ 8 }
{
    let mut settings = Settings::default();
    for next in 1..=SETTINGS {
        if !set(&mut settings, argument(rt, next, &mut room())) {
            return Taken { settings, next };
        }
    }
    Taken {
        settings,
        next: SETTINGS + 1,
    }
}

// Sets what a word asks for. False where it is no setting.
fn set(settings: &mut Settings, word: &[u8]) -> bool {
    match word {
        b"--ascii-targets" => settings.ascii_targets = true,
        b"--spaces-in-request-line" => settings.spaces_in_request_line = true,
        b"--spaces-in-status-line" => settings.spaces_in_status_line = true,
        b"--space-before-first-name" => settings.space_before_first_name = true,
        b"--spaces-after-name" => settings.spaces_after_name = true,
        b"--multiline-headers" => settings.multiline_headers = true,
        // one flag for both, since the call names what is read
        b"--ignore-invalid-headers" => {
            settings.ignore_invalid_headers_in_requests = true;
            settings.ignore_invalid_headers_in_responses = true;
        }
        _ => return false,
    }
    true
}
