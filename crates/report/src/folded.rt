// Why a complete head has no plain form: the first of its values that goes on over a line end.
use crate::rows::header;
use crate::stop;
use page::place::part;
use page::shown::Escaped;
use page::text::Page;
use reading::Slots;
use std::fmt;
use std::fmt::Write;

// Slots that hold no header are zeros. A head with no such value has a plain form, and there is nothing to say.
pub fn folded(page: &mut Page, s: &[u8], slots: &Slots) -> fmt::Result {
    let (headers, _) = slots.as_chunks::<4>();
    for &numbers in headers {
        let (name, value) = header(numbers);
        if let Some(line_end) = line_end_in(part(s, value.offset, value.length)) {
            let position = value.offset.saturating_add(line_end);
            return told(page, s, part(s, name.offset, name.length), position);
        }
    }
    Ok(())
}

// Where the first CR or LF stands.
fn line_end_in(value: &[u8]) -> Option<usize> {
    value.iter().position(|&b| b == b'\n' || b == b'\r')
}

// The name of the header, and where its value goes on.
fn told(page: &mut Page, s: &[u8], name: &[u8], position: usize) -> fmt::Result {
    write!(page, "no plain form")?;
    stop(page, s, position)?;
    write!(
        page,
        "  expected: the end of the value of {}, which goes on in the next line; the plain form has each value in one line
  to do:    have the sender write the value in one line; to pass the head on, put a space in the place of each such
            line end and the blanks around it
",
        Escaped(name)
    )
}
