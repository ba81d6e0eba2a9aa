// What the program answers.
ghost use Rattle.std.specs.Prelude.{◌≡◌, ◌++◌, ◌≤◌, T, length, drop};
ghost use Rattle.texts.specs.Paper.Hits.{good_pattern};
ghost use Rattle.report.specs.Paper.Report.{lines_of, report_of, given_pattern};
ghost use Rattle.report.specs.Helpers.Answers.{PackedOut, answer_for, line_for, start_of_text};

use choosing::choose::choose;
use choosing::count::count;
use ground::refusal::Refusal;
use roll::pack::pack;
use roll::search::search;
use symbols::size::bytes_for;
use texts::pattern::good_pattern;
use writing::decimal::{decimal_out, numbers_out};
use writing::hexadecimal::hex_out;
use writing::plain::text_out;

// refused NUMBER VALUE
#[tactic(auto, using(writing::specs::Laws::Written::decimal_most))]
fn refused_out(out: &mut [u8], refusal: Refusal) -> usize
    requires { 64 ≤ length out.old }
    ensures length { result ≡ length (line_for refusal) }
    ensures out { out.new ≡ line_for refusal ++ drop (length (line_for refusal)) out.old }
{
    let mut p = text_out(out, 0, b"refused ");
    p = decimal_out(out, p, u64::from(refusal.number()));
    p = text_out(out, p, b" ");
    p = decimal_out(out, p, refusal.value());
    text_out(out, p, b"\n")
}

// best S symbols T, the bytes, the hits, hits N
#[tactic(auto, using(crate::proofs::Long::lines_long))]
fn lines_out(out: &mut [u8], s: u8, h: u32, bytes: &[u8], hits: &[u32]) -> usize
    requires { length (lines_of s h bytes.now hits.now) ≤ length out.old }
    ensures length { result ≡ length (lines_of s h bytes.now hits.now) }
    ensures out { out.new ≡ lines_of s h bytes.now hits.now ++ drop (length (lines_of s h bytes.now hits.now)) out.old }
{
    let mut p = text_out(out, 0, b"best ");
    p = decimal_out(out, p, u64::from(s));
    p = text_out(out, p, b" symbols ");
    p = decimal_out(out, p, u64::from(h));
    p = text_out(out, p, b"\n");
    p = hex_out(out, p, bytes);
    p = numbers_out(out, p, hits);
    p = text_out(out, p, b"hits ");
    p = decimal_out(out, p, hits.len() as u64);
    text_out(out, p, b"\n")
}

// The lines for a good pattern and a text of at most 16,384 bytes: chosen with k = 2, packed, searched.
fn packed_out(pattern: &[u8], text: &[u8], out: &mut [u8]) -> Result<usize, Refusal>
    requires { T (good_pattern pattern.now) × (length text.now ≤ 16384) × (length out.old ≡ 147456) }
    ensures { PackedOut pattern.now text.now out.old result out.new }
{
    let mut counts = [0u32; 256];
    count(text, &mut counts)?;
    let choice = choose(2, &counts)?;
    let mut buf = [0u8; 16384];
    let roll = pack(choice.table, text, &mut buf)?;
    let mut hits = [0u32; 16384];
    let total = search(roll, &buf, pattern, &mut hits)?;
    let taken = bytes_for(2, roll.h as usize);
    Ok(lines_out(
        out,
        roll.table.code.s,
        roll.h,
        &buf[..taken],
        &hits[..total as usize],
    ))
}

// The answer to them: the lines, or packing's refusal.
fn answer(pattern: &[u8], text: &[u8], out: &mut [u8]) -> usize
    requires { T (good_pattern pattern.now) × (length text.now ≤ 16384) × (length out.old ≡ 147456) }
    ensures length { result ≡ length (answer_for pattern.now text.now) }
    ensures out { out.new ≡ answer_for pattern.now text.now ++ drop (length (answer_for pattern.now text.now)) out.old }
{
    match packed_out(pattern, text, out) {
        Ok(end) => end,
        Err(refusal) => refused_out(out, refusal),
    }
}

// The place of the first byte 10, or the end.
fn line_end(input: &[u8]) -> usize
    ensures within { result ≤ length input.now }
    ensures pattern { result ≡ length (given_pattern input.now) }
{
    match input.iter().position(|b| *b == b'\n') {
        Some(i) => i,
        None => input.len(),
    }
}

// The place after it, or the end.
#[tactic(auto, unfolding(crate::specs::Helpers::Answers::start_of_text))]
fn text_start(input: &[u8], end: usize) -> usize
    requires { end ≤ length input.now }
    ensures within { result ≤ length input.now }
    ensures next { result ≡ start_of_text end (length input.now) }
{
    if end < input.len() { end + 1 } else { end }
}

pub fn report(input: &[u8], out: &mut [u8; 147456]) -> usize
    ensures length { result ≡ length (report_of input.now) }
    ensures out { out.new ≡ report_of input.now ++ drop (length (report_of input.now)) out.old }
{
    let end = line_end(input);
    if !good_pattern(&input[..end]) {
        return refused_out(out, Refusal::BadPattern);
    }
    let from = text_start(input, end);
    if 16384 < input.len() - from {
        return refused_out(out, Refusal::NoRoom(16384));
    }
    answer(&input[..end], &input[from..], out)
}
