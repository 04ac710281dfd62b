// What reading heads one behind another comes to.
#![tactic(auto)]

use parts::Fault;

// Why the reading stopped: all of the input was read; there is no room for one more end; the input ends before the next head does; the
// next head has an error, whose position is one of the whole input. No Result, since none of these is a success, and the definition `Stopped` reads
// by all four.
#[derive(Clone, Copy)]
pub enum Stop {
    End,
    Full,
    More,
    Bad(Fault),
}

// How many heads were read, the position behind the last of them, and why the reading stopped there.
#[derive(Clone, Copy)]
pub struct RowRead {
    pub count: usize,
    pub end: usize,
    pub stop: Stop,
}
