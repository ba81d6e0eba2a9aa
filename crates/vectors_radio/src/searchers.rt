// A searcher as a case gives it, and as it is printed.
use casebook::given::Cases;
use casebook::printed::{end, roll_out, runs};
use judge::records::{Judge, Progress};
use radio::records::Searcher;
use std::io::{self, Write};

// A number of 64 bits, the high half and the low half.
fn halves(cases: &mut Cases) -> u64 {
    let high = cases.word();
    let low = cases.word();
    u64::from(high) * 4294967296 + u64::from(low)
}

fn progress(cases: &mut Cases) -> Progress {
    let read = cases.word();
    let count = cases.word();
    let first = cases.word();
    let past = cases.word();
    let place = cases.word();
    let shorter = cases.word();
    let rows = cases.word();
    let value = cases.word();
    let bad = cases.word();
    let stained = cases.word();
    Progress {
        read,
        count,
        first,
        past,
        place,
        shorter,
        rows,
        value,
        bad,
        stained,
    }
}

pub fn searcher(cases: &mut Cases) -> Searcher {
    let roll = cases.roll();
    let progress = progress(cases);
    let mut pattern = [0; 64];
    cases.bytes(&mut pattern);
    let length = cases.word();
    let ends = halves(cases);
    Searcher {
        judge: Judge { roll, progress },
        pattern,
        length,
        ends,
    }
}

fn progress_out(printer: &mut impl Write, p: Progress) -> io::Result<()> {
    write!(printer, " {} {} {}", p.read, p.count, p.first)?;
    write!(printer, " {} {} {}", p.past, p.place, p.shorter)?;
    write!(printer, " {} {}", p.rows, p.value)?;
    write!(printer, " {} {}", p.bad, p.stained)
}

// All that a searcher holds.
pub fn searcher_out(printer: &mut impl Write, searcher: Searcher) -> io::Result<()> {
    printer.write_all(b"searcher")?;
    progress_out(printer, searcher.judge.progress)?;
    roll_out(printer, searcher.judge.roll)?;
    runs(printer, &searcher.pattern)?;
    write!(
        printer,
        " length {} ends {}",
        searcher.length, searcher.ends
    )?;
    end(printer)
}
