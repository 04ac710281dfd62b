// Places in the input.
ghost use Rattle.std.specs.Prelude.{◌≡◌, ◌≤◌, ◌<◌, ◌+◌, ◌-◌, slice_range, slice_index, ℕ};
ghost use Rattle.std.specs.Prelude.{length as count};

// A position, which is that of a byte or the input's end, and the line that it stands in.
#[derive(Clone, Copy)]
pub struct Place<'a> {
    // the line's number, the first being 1, and where it starts
    pub number: usize,
    pub start: usize,
    // its bytes, with the LF that ends it, and those of them before the position and from there on
    pub line: &'a [u8],
    pub before: &'a [u8],
    pub behind: &'a [u8],
}

impl<'a> Place<'a> {
    // A position behind the input's end stands for the end.
    pub fn at(s: &'a [u8], position: usize) -> Self
        ensures before { position ≤ count s.now → result.before.now ≡ slice_range s.now result.start position }
        ensures one_line { (i : ℕ) → result.start ≤ i → i < position → position ≤ count s.now → ¬ (slice_index s.now i ≡ 10) }
        ensures behind_a_line { 0 < result.start → slice_index s.now (result.start - 1) ≡ 10 }
    {
        let (before, behind) = s.split_at_checked(position).unwrap_or((s, &[]));
        let start = last_line_start(before);
        Place {
            number: before.split(|&b| b == b'\n').count(),
            start,
            line: first_line(&s[start..]),
            before: &before[start..],
            behind: first_line(behind),
        }
    }
}

// Where the last line starts.
fn last_line_start(s: &[u8]) -> usize
    ensures within { result ≤ count s.now }
    ensures one_line { (i : ℕ) → result ≤ i → i < count s.now → ¬ (slice_index s.now i ≡ 10) }
    ensures behind_a_line { 0 < result → slice_index s.now (result - 1) ≡ 10 }
{
    s.iter().rposition(|&b| b == b'\n').map_or(0, |end| end + 1)
}

fn first_line(s: &[u8]) -> &[u8] {
    s.split_inclusive(|&b| b == b'\n').next().unwrap_or(&[])
}

// A part of the input. What the library finds lies within, and asking is shorter than citing the proof.
pub fn part(s: &[u8], offset: usize, length: usize) -> &[u8]
    ensures { offset + length ≤ count s.now → result.now ≡ slice_range s.now offset (offset + length) }
{
    s.get(offset..)
        .and_then(|rest| rest.get(..length))
        .unwrap_or(&[])
}
