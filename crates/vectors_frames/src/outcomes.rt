// What each operation answers and leaves. The record that stands beside a refusal too is the C door's.
use casebook::printed::{answered, end, roll_out, runs, told};
use monterculo::{monterculo_read_first, monterculo_read_frames};
use sound::records::Roll;
use std::io::{self, Write};

// Written, and the whole output read.
pub fn written(
    printer: &mut impl Write,
    roll: Roll,
    buf: &[u8],
    out: &mut [u8],
    other: &mut [u8],
) -> io::Result<()> {
    printer.write_all(b"write")?;
    answered(printer, frames::write_frames::write_frames(roll, buf, out))?;
    runs(printer, out)?;
    end(printer)?;
    frames_read(printer, out, other)
}

pub fn frames_read(printer: &mut impl Write, text: &[u8], buf: &mut [u8]) -> io::Result<()> {
    printer.write_all(b"frames")?;
    let outcome = monterculo_read_frames(text, buf);
    told(printer, outcome.answer.number, outcome.answer.value)?;
    roll_out(printer, outcome.roll)?;
    runs(printer, buf)?;
    end(printer)
}

pub fn first_read(printer: &mut impl Write, line: &[u8]) -> io::Result<()> {
    printer.write_all(b"first")?;
    let outcome = monterculo_read_first(line);
    told(printer, outcome.answer.number, outcome.answer.value)?;
    roll_out(printer, outcome.roll)?;
    end(printer)
}

pub fn frame_read(printer: &mut impl Write, line: &[u8], out: &mut [u8]) -> io::Result<()> {
    printer.write_all(b"frame")?;
    answered(printer, frames::read_frame::read_frame(line, out))?;
    runs(printer, out)?;
    end(printer)
}
