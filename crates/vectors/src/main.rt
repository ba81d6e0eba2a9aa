// Runs worked cases through the public operations and prints what they answer and what they leave in lent memory. Where a value stands beside a refusal
// too, it is the C door's, and for a choice the library's.
//
// Standard input is cases as `casebook` has them: each is the number of an operation and its arguments; 0 ends. They come in parts of 262,144
// bytes, and no case goes over the end of a part: a comment fills it up.

#![tactic(auto)]

use casebook::given::{Cases, read_full};
use casebook::printed::{answered, done, end, list, rises, roll_out, runs, table_out, told};
use casebook::rooms::{buffer, text_room};
use choosing::choose::no_choice;
use monterculo::{monterculo_codeword_of, monterculo_edit, monterculo_pack};
use sound::records::Roll;
use std::io::{self, Write};
use stopper::code::LONGEST;
use stopper::codeword_of::Codeword;

// The most entries, or hits, that a case is given.
const GIVEN: usize = 2100;

fn main(rt: HostRuntime) -> io::Result<()> {
    let mut printer = io::writer(&rt);
    part(&rt, &mut printer)?;
    part(&rt, &mut printer)?;
    part(&rt, &mut printer)?;
    part(&rt, &mut printer)
}

fn part(rt: &impl Input, printer: &mut impl Write) -> io::Result<()> {
    let mut input = [0u8; 262144];
    let n = read_full(&mut rt.reader(), &mut input)?;
    all_cases(printer, &input[..n])
}

fn all_cases(printer: &mut impl Write, input: &[u8]) -> io::Result<()> {
    let mut cases = Cases::of(input);
    // A case has a byte at least, so there are no more of them.
    for _ in 0..input.len() {
        let Ok(operation) = Operation::try_from(cases.number()) else {
            break;
        };
        one_case(printer, operation, &mut cases)?;
    }
    Ok(())
}

#[derive(Clone, Copy)]
enum Operation {
    Check,
    Unpack,
    Pack,
    Directory,
    Read,
    Search,
    Edit,
    Report,
    Count,
    Choose,
    Codeword,
    Character,
    LongEdit,
}

// No operation has this number.
#[derive(Clone, Copy)]
struct Unknown;

impl TryFrom<usize> for Operation {
    type Error = Unknown;

    fn try_from(number: usize) -> Result<Operation, Unknown> {
        match number {
            1 => Ok(Operation::Check),
            2 => Ok(Operation::Unpack),
            3 => Ok(Operation::Pack),
            4 => Ok(Operation::Directory),
            5 => Ok(Operation::Read),
            6 => Ok(Operation::Search),
            7 => Ok(Operation::Edit),
            8 => Ok(Operation::Report),
            9 => Ok(Operation::Count),
            10 => Ok(Operation::Choose),
            11 => Ok(Operation::Codeword),
            12 => Ok(Operation::Character),
            13 => Ok(Operation::LongEdit),
            _ => Err(Unknown),
        }
    }
}

fn one_case(printer: &mut impl Write, operation: Operation, cases: &mut Cases) -> io::Result<()> {
    match operation {
        Operation::Check => check_case(printer, cases),
        Operation::Unpack => unpack_case(printer, cases),
        Operation::Pack => pack_case(printer, cases),
        Operation::Directory => directory_case(printer, cases),
        Operation::Read => read_case(printer, cases),
        Operation::Search => search_case(printer, cases),
        Operation::Edit => edit_case(printer, cases),
        Operation::Report => report_case(printer, cases),
        Operation::Count => count_case(printer, cases),
        Operation::Choose => choose_case(printer, cases),
        Operation::Codeword => codeword_case(printer, cases),
        Operation::Character => character_case(printer, cases),
        Operation::LongEdit => long_edit_case(printer, cases),
    }
}

// A roll, a buffer.
fn check_case(printer: &mut impl Write, cases: &mut Cases) -> io::Result<()> {
    let roll = cases.roll();
    let mut space = buffer();
    let buf = cases.bytes(&mut space);
    printer.write_all(b"check")?;
    done(printer, roll::check::check(roll, buf))?;
    end(printer)
}

// A roll, a buffer, start, end, the output as it was.
fn unpack_case(printer: &mut impl Write, cases: &mut Cases) -> io::Result<()> {
    let roll = cases.roll();
    let mut space = buffer();
    let buf = cases.bytes(&mut space);
    let start = cases.number();
    let stop = cases.number();
    let mut output = text_room();
    let out = cases.bytes(&mut output);
    printer.write_all(b"unpack")?;
    done(printer, roll::unpack::unpack(roll, buf, start, stop, out))?;
    runs(printer, out)?;
    end(printer)
}

// A table, a text, the buffer as it was.
fn pack_case(printer: &mut impl Write, cases: &mut Cases) -> io::Result<()> {
    let table = cases.table();
    let mut letters = text_room();
    let text = cases.bytes(&mut letters);
    let mut space = buffer();
    let buf = cases.bytes(&mut space);
    printer.write_all(b"pack")?;
    let outcome = monterculo_pack(table, text, buf);
    told(printer, outcome.answer.number, outcome.answer.value)?;
    roll_out(printer, outcome.roll)?;
    runs(printer, buf)?;
    end(printer)
}

// A roll, a buffer, the directory as it was.
fn directory_case(printer: &mut impl Write, cases: &mut Cases) -> io::Result<()> {
    let roll = cases.roll();
    let mut space = buffer();
    let buf = cases.bytes(&mut space);
    let mut entries = [0; GIVEN];
    let dir = cases.numbers(&mut entries);
    directory(printer, roll, buf, dir)
}

// One by one, or, where they were not given, as runs.
fn entries_out(printer: &mut impl Write, dir: &[u32]) -> io::Result<()> {
    if dir.len() <= GIVEN {
        list(printer, dir)
    } else {
        rises(printer, dir)
    }
}

fn directory(printer: &mut impl Write, roll: Roll, buf: &[u8], dir: &mut [u32]) -> io::Result<()> {
    printer.write_all(b"directory")?;
    done(
        printer,
        roll::make_directory::make_directory(roll, buf, dir),
    )?;
    entries_out(printer, dir)?;
    end(printer)
}

// A roll, a buffer, a directory, a place.
fn read_case(printer: &mut impl Write, cases: &mut Cases) -> io::Result<()> {
    let roll = cases.roll();
    let mut space = buffer();
    let buf = cases.bytes(&mut space);
    let mut entries = [0; GIVEN];
    let dir = cases.numbers(&mut entries);
    let place = cases.number();
    read(printer, roll, buf, dir, place)
}

fn read(
    printer: &mut impl Write,
    roll: Roll,
    buf: &[u8],
    dir: &[u32],
    place: usize,
) -> io::Result<()> {
    printer.write_all(b"read")?;
    answered(printer, roll::read_one::read_one(roll, buf, dir, place))?;
    end(printer)
}

// A roll, a buffer, a pattern, the hit list as it was: both searches.
fn search_case(printer: &mut impl Write, cases: &mut Cases) -> io::Result<()> {
    let roll = cases.roll();
    let mut space = buffer();
    let buf = cases.bytes(&mut space);
    let mut letters = [0; 128];
    let pattern = cases.bytes(&mut letters);
    let mut others = [0; GIVEN];
    let mut same = *cases;
    let again = same.numbers(&mut others);
    let mut places = [0; GIVEN];
    let hits = cases.numbers(&mut places);
    printer.write_all(b"search")?;
    answered(printer, roll::search::search(roll, buf, pattern, hits))?;
    list(printer, hits)?;
    end(printer)?;
    printer.write_all(b"jumping")?;
    answered(
        printer,
        jump::search_jumping::search_jumping(roll, buf, pattern, again),
    )?;
    list(printer, again)?;
    end(printer)
}

// A roll, a buffer, a directory, start, end, a text.
fn edit_case(printer: &mut impl Write, cases: &mut Cases) -> io::Result<()> {
    let roll = cases.roll();
    let mut space = buffer();
    let buf = cases.bytes(&mut space);
    let mut entries = [0; GIVEN];
    let dir = cases.numbers(&mut entries);
    let start = cases.number();
    let stop = cases.number();
    let mut letters = [0; 128];
    let text = cases.bytes(&mut letters);
    edited(printer, roll, buf, dir, start, stop, text)
}

fn edited(
    printer: &mut impl Write,
    roll: Roll,
    buf: &mut [u8],
    dir: &mut [u32],
    start: usize,
    stop: usize,
    text: &[u8],
) -> io::Result<()> {
    printer.write_all(b"edit")?;
    let outcome = monterculo_edit(roll, buf, dir, start, stop, text);
    told(printer, outcome.answer.number, outcome.answer.value)?;
    roll_out(printer, outcome.roll)?;
    runs(printer, buf)?;
    entries_out(printer, dir)?;
    end(printer)
}

// A roll, a buffer, start, end, a text: a directory is made, the character at the start is read, and the edit is made.
fn long_edit_case(printer: &mut impl Write, cases: &mut Cases) -> io::Result<()> {
    let roll = cases.roll();
    let mut space = buffer();
    let buf = cases.bytes(&mut space);
    let start = cases.number();
    let stop = cases.number();
    let mut letters = [0; 128];
    let text = cases.bytes(&mut letters);
    let mut entries = [0; 32770];
    directory(printer, roll, buf, &mut entries)?;
    read(printer, roll, buf, &entries, start)?;
    edited(printer, roll, buf, &mut entries, start, stop, text)
}

// The program's input.
fn report_case(printer: &mut impl Write, cases: &mut Cases) -> io::Result<()> {
    let mut letters = [0; 16600];
    let input = cases.bytes(&mut letters);
    printer.write_all(b"report\n")?;
    let mut out = [0; 147456];
    let long = report::program::report(input, &mut out);
    printer.write_all(&out[..long])
}

// A text, the counts as they were.
fn count_case(printer: &mut impl Write, cases: &mut Cases) -> io::Result<()> {
    let mut letters = text_room();
    let text = cases.bytes(&mut letters);
    let mut row = [0; 300];
    let counts = cases.numbers(&mut row);
    printer.write_all(b"count")?;
    done(printer, choosing::count::count(text, counts))?;
    list(printer, counts)?;
    end(printer)
}

// k, the counts.
fn choose_case(printer: &mut impl Write, cases: &mut Cases) -> io::Result<()> {
    let k = cases.byte();
    let mut row = [0; 300];
    let counts = cases.numbers(&mut row);
    printer.write_all(b"choose")?;
    let chosen = choosing::choose::choose(k, counts);
    done(printer, chosen.map(|_| ()))?;
    let choice = chosen.unwrap_or(no_choice(k));
    write!(printer, " total {}", choice.total)?;
    table_out(printer, choice.table)?;
    end(printer)
}

// A table, a character.
fn codeword_case(printer: &mut impl Write, cases: &mut Cases) -> io::Result<()> {
    let table = cases.table();
    let wanted = cases.byte();
    printer.write_all(b"codeword")?;
    let outcome = monterculo_codeword_of(table, wanted);
    told(printer, outcome.answer.number, outcome.answer.value)?;
    write!(printer, " length {}", outcome.word.length)?;
    runs(printer, &outcome.word.symbols)?;
    end(printer)
}

// A table, a length, symbols.
fn character_case(printer: &mut impl Write, cases: &mut Cases) -> io::Result<()> {
    let table = cases.table();
    let length = cases.number();
    let mut symbols = [0; LONGEST];
    cases.bytes(&mut symbols);
    let word = Codeword { length, symbols };
    printer.write_all(b"character")?;
    answered(printer, stopper::character_of::character_of(table, word))?;
    end(printer)
}
