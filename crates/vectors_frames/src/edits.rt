// The edits of a text: how many, and each a range and the bytes that come in its place. Each is made in the text as it was given.
ghost use Rattle.std.specs.Prelude.{◌≤◌, length};

use crate::outcomes::{first_read, frame_read, frames_read};
use casebook::given::Cases;
use casebook::rooms::{buffer, text_room};
use std::io::{self, Write};

// What a text is read by.
#[derive(Clone, Copy)]
pub enum Reading {
    Frames,
    First,
    Frame,
}

// Bytes laid into a row from `at` on, as many as there is room for; the place after them.
fn lay(row: &mut [u8], at: usize, bytes: &[u8]) -> usize
    requires { at ≤ length row.old }
    ensures { result ≤ length row.new }
{
    let to = at + bytes.len().min(row.len() - at);
    row[at..to].copy_from_slice(&bytes[..to - at]);
    to
}

// The bytes of a text from one place up to another, as many as there are.
fn part(text: &[u8], from: usize, to: usize) -> &[u8] {
    let to = to.min(text.len());
    &text[from.min(to)..to]
}

// A text with an edit.
fn edited<'r>(cases: &mut Cases, text: &[u8], row: &'r mut [u8]) -> &'r mut [u8] {
    let start = cases.number();
    let stop = cases.number();
    let mut letters = [0; 1100];
    let come = cases.bytes(&mut letters);
    let front = lay(row, 0, part(text, 0, start));
    let middle = lay(row, front, come);
    let to = lay(row, middle, part(text, stop, text.len()));
    &mut row[..to]
}

// Read by one of them, what is lent as it was.
fn read(printer: &mut impl Write, by: Reading, text: &[u8], lent: &[u8]) -> io::Result<()> {
    let mut space = buffer();
    let n = lay(&mut space, 0, lent);
    match by {
        Reading::Frames => frames_read(printer, text, &mut space[..n]),
        Reading::First => first_read(printer, text),
        Reading::Frame => frame_read(printer, text, &mut space[..n]),
    }
}

fn one_edit(
    printer: &mut impl Write,
    cases: &mut Cases,
    by: Reading,
    text: &[u8],
    lent: &[u8],
) -> io::Result<()> {
    let mut letters = text_room();
    let after = edited(cases, text, &mut letters);
    read(printer, by, after, lent)
}

// The text itself, how many edits, and each.
pub fn all_edits(
    printer: &mut impl Write,
    cases: &mut Cases,
    by: Reading,
    text: &[u8],
    lent: &[u8],
) -> io::Result<()> {
    read(printer, by, text, lent)?;
    for _ in 0..cases.number() {
        one_edit(printer, cases, by, text, lent)?;
    }
    Ok(())
}
