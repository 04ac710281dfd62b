// Text in fixed room.
ghost use Rattle.page.specs.declared.text.TheConstants.{ROOM};
ghost use Rattle.std.specs.Prelude.{◌≡◌, ◌≤◌, ◌+◌, ℕ, List, [], ◌++◌, length, take, IsOk, IsErr};

use std::fmt;
use std::marker::Model;

// Room for the longest report: an input of 65,536 bytes, each of them as \xHH and twice, and some words.
pub const ROOM: usize = 589824;

// An array and no String, since a report is made in fixed memory.
pub type Room = [u8; ROOM];

// What was written so far, at the start of the room that was lent, so that a program has one room for all that it writes.
#[derive(Drop)]
pub struct Page<'a> {
    room: &'a mut Room,
    written: usize,
}

impl<'a> Model for Page<'a> {
    ghost Value = { List ℕ };

    ghost view = { λ p. take p.written p.room.now };

    ghost invariant = { λ p. (p.written ≤ ROOM) × (length p.room.now ≡ ROOM) };
}

impl<'a> Page<'a> {
    pub fn new(room: &'a mut Room) -> Self
        ensures { result ≡ [] }
    {
        Page { room, written: 0 }
    }

    // Takes back all that was written.
    pub fn clear(&mut self)
        ensures { self.new ≡ [] }
    {
        self.written = 0;
    }

    pub fn text(&self) -> &[u8]
        ensures { result.now ≡ self.now }
    {
        &self.room[..self.written]
    }
}

// A text that has no room is an error, and nothing of it is written.
impl fmt::Write for Page<'_> {
    ghost write_str_gives = { λ before text after. after ≡ before ++ text };

    fn write_str(&mut self, s: &str) -> fmt::Result
        ensures ok { IsOk result → self.new ≡ self.old ++ s.now }
        ensures refused { IsErr result → self.new ≡ self.old }
        ensures fits { length self.old + length s.now ≤ ROOM → IsOk result }
    {
        let text = s.as_bytes();
        if ROOM - self.written < text.len() {
            return Err(fmt::Error);
        }
        let end = self.written + text.len();
        let room = &mut *self.room;
        room[self.written..end].copy_from_slice(text);
        self.written = end;
        Ok(())
    }
}
