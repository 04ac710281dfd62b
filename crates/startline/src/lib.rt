// What request lines and status lines share: how far one was read, and what is known of it by then.
#![tactic(auto)]

use parts::Passed;

// What reading a start line comes to, and what is known of it by then.
#[derive(Clone, Copy)]
pub struct StartLineRead<L> {
    pub end: Passed,
    pub line: L,
}
