// A frame text read whole: the shape of all lines first, then its bytes judged, at most 32 at a time, and only then stored.
ghost use Rattle.std.specs.Prelude.{◌≡◌, ◌++◌, ◌≤◌, ◌<◌, T, length, drop};
ghost use Rattle.ground.specs.Paper.Answers.{outcome_of};
ghost use Rattle.stopper.specs.Paper.Table.{good_table};
ghost use Rattle.symbols.specs.Helpers.Widths.{Width};
ghost use Rattle.judge.specs.Paper.Judge.{judge_for, judge_after, verdict_says};
ghost use Rattle.frames.specs.Paper.Frames.{later_for, bytes_used, all_right, packed_from};
ghost use Rattle.frames.specs.Paper.Operations.{lines_say, packed_after, ReadingFrames};
ghost use Rattle.frames.specs.Helpers.Reading.{ReadingRest};

use crate::lines::line_end;
use crate::read_first::read_first;
use crate::read_frame::{MOST_BYTES, MOST_LINE, bytes_next, bytes_of, is_later, take_packed};
use ground::refusal::Refusal;
use judge::judging::{judge_of, judge_piece, verdict};
use roll::fits::fits;
use sound::records::Roll;
use symbols::size::bytes_for;

// Whether the lines after the first are all there, and none too many: each has the length that the packed bytes ask for.
fn check_lines(rest: &[u8], bytes: usize) -> Result<(), Refusal>
    ensures { outcome_of result ≡ lines_say bytes rest.now }
{
    let mut rest = rest;
    let mut left = bytes;
    let mut number: u64 = 1;
    // A while: how long the next line is follows from the bytes that are left.
    while 0 < left {
        let next = bytes_next(left);
        let long = 2 * next + 3;
        if rest.len() < long || !is_later(&rest[..long]) {
            return Err(Refusal::BadLine(number));
        }
        rest = &rest[long..];
        left -= next;
        number += 1;
    }
    if rest.is_empty() {
        Ok(())
    } else {
        Err(Refusal::BadLine(number))
    }
}

// What check says of 6, 7 and 8: the bytes of each line are handed to the judge.
fn judge_lines(roll: Roll, rest: &[u8]) -> Result<(), Refusal>
    requires { T (good_table roll.table) × T (all_right (later_for (bytes_used roll)) (bytes_used roll) rest.now) }
    ensures { outcome_of result ≡ verdict_says (judge_after (judge_for roll) (packed_after roll rest.now)) }
{
    let mut judge = judge_of(roll);
    let mut piece = [0u8; MOST_BYTES];
    for line in rest.chunks(MOST_LINE) {
        let many = bytes_of(line);
        take_packed(line, &mut piece[..many]);
        judge = judge_piece(judge, &piece[..many]);
    }
    verdict(judge)
}

// The bytes of each line, stored one after the other: they fill what is lent.
fn store_lines(rest: &[u8], out: &mut [u8])
    requires { T (all_right (later_for (length out.old)) (length out.old) rest.now) }
    ensures { out.new ≡ packed_from (later_for (length out.old)) rest.now }
{
    let mut at: usize = 0;
    for line in rest.chunks(MOST_LINE) {
        let to = at + bytes_of(line);
        take_packed(line, &mut out[at..to]);
        at = to;
    }
}

// The lines after the first, of a roll whose record is known: nothing is stored before all is asked.
fn read_rest(roll: Roll, rest: &[u8], buf: &mut [u8]) -> Result<(), Refusal>
    requires { Width roll.table.code.k }
    ensures { ReadingRest roll rest.now buf.old result buf.new }
{
    let bytes = bytes_for(roll.table.code.k, roll.h as usize);
    check_lines(rest, bytes)?;
    fits(roll, buf)?;
    judge_lines(roll, rest)?;
    store_lines(rest, &mut buf[..bytes]);
    Ok(())
}

pub fn read_frames(text: &[u8], buf: &mut [u8]) -> Result<Roll, Refusal>
    ensures { ReadingFrames text.now buf.old result buf.new }
{
    let from = line_end(text);
    let roll = read_first(&text[..from])?;
    read_rest(roll, &text[from..], buf)?;
    Ok(roll)
}
