// Runs rolls and frame texts through write_frames, read_frames, read_first and read_frame, and prints what they answer and what they leave.
//
// Standard input is cases as `casebook` has them. A case is 1, a roll, its buffer, the output as it was, and a buffer as it was: the roll is
// written, and then the whole output is read into that buffer. Or it is 2, 3 or 4, what is lent as it was, a text, and its edits: the text is
// read, and then the text with each edit, by read_frames, read_first or read_frame; read_first is lent nothing. 0 ends. They come in parts of
// 262,144 bytes, and no case goes over the end of a part: a comment fills it up.

#![tactic(auto)]

mod edits;
mod outcomes;

use casebook::given::{Cases, read_full};
use casebook::rooms::{buffer, text_room};
use edits::{Reading, all_edits};
use outcomes::written;
use std::io::{self, Write};

fn main(rt: HostRuntime) -> io::Result<()> {
    let mut printer = io::writer(&rt);
    part(&rt, &mut printer)?;
    part(&rt, &mut printer)
}

fn part(rt: &impl Input, printer: &mut impl Write) -> io::Result<()> {
    let mut input = [0u8; 262144];
    let n = read_full(&mut rt.reader(), &mut input)?;
    all_cases(printer, &input[..n])
}

fn all_cases(printer: &mut impl Write, input: &[u8]) -> io::Result<()> {
    let mut cases = Cases::of(input);
    // A case has a byte at least, so there are no more of them.
    for _ in 0..input.len() {
        let Ok(kind) = Kind::try_from(cases.number()) else {
            break;
        };
        match kind {
            Kind::Write => write_case(printer, &mut cases)?,
            Kind::Read(by) => read_case(printer, &mut cases, by)?,
        }
    }
    Ok(())
}

#[derive(Clone, Copy)]
enum Kind {
    Write,
    Read(Reading),
}

// No kind has this number.
#[derive(Clone, Copy)]
struct Unknown;

impl TryFrom<usize> for Kind {
    type Error = Unknown;

    fn try_from(number: usize) -> Result<Kind, Unknown> {
        match number {
            1 => Ok(Kind::Write),
            2 => Ok(Kind::Read(Reading::Frames)),
            3 => Ok(Kind::Read(Reading::First)),
            4 => Ok(Kind::Read(Reading::Frame)),
            _ => Err(Unknown),
        }
    }
}

// A roll, its buffer, the output as it was, a buffer as it was.
fn write_case(printer: &mut impl Write, cases: &mut Cases) -> io::Result<()> {
    let roll = cases.roll();
    let mut space = buffer();
    let buf = cases.bytes(&mut space);
    let mut output = text_room();
    let out = cases.bytes(&mut output);
    let mut other = buffer();
    let lent = cases.bytes(&mut other);
    written(printer, roll, buf, out, lent)
}

// What is lent as it was, a text, edits.
fn read_case(printer: &mut impl Write, cases: &mut Cases, by: Reading) -> io::Result<()> {
    let mut space = buffer();
    let lent = cases.bytes(&mut space);
    let mut letters = text_room();
    let text = cases.bytes(&mut letters);
    all_edits(printer, cases, by, text, lent)
}
