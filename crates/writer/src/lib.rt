// The plain form of what was read, written into bytes that the caller lends. It demands nothing of the caller.
#![tactic(auto, using(crate::specs::Promise::promises))]

ghost use Rattle.writer.specs.Promise.{PlainPromise};

use formlines::Plain;

// Why nothing was written: so many bytes are needed; what was read is not complete, or its places do not lie in the input; there are more
// bytes to write than a number can say.
#[derive(Clone, Copy)]
pub enum Unwritten {
    Needs(usize),
    Unwritable,
    TooLong,
}

// Answers how many bytes were written. What is written is a head if a call answered it on the same input.
pub fn plain_form<T: Plain>(
    s: &[u8],
    read: T,
    slots: &[usize],
    out: &mut [u8],
) -> Result<usize, Unwritten>
    ensures { PlainPromise s.now (T.lies s.now read slots.now) (T.form s.now read slots.now) out.old result out.new }
{
    if !read.lies(s, slots) {
        return Err(Unwritten::Unwritable);
    }
    // a byte of room is enough to learn the length
    let n = read.put(&mut [0], 0, s, slots);
    if n == usize::MAX {
        return Err(Unwritten::TooLong);
    }
    if out.len() < n {
        return Err(Unwritten::Needs(n));
    }
    read.put(out, 0, s, slots);
    Ok(n)
}
