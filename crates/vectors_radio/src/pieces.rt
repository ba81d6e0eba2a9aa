// The pieces of a case, fed one after the other.
use crate::searchers::searcher_out;
use casebook::given::Cases;
use casebook::printed::{done, end};
use radio::records::Searcher;
use std::io::{self, Write};

// What lies in an entry when it is lent: more than any hit.
const LENT: u32 = 2000000;

// The first entries, so many of them.
fn named(printer: &mut impl Write, slice: &[u32], hits: usize) -> io::Result<()> {
    for hit in slice.iter().take(hits) {
        write!(printer, " {hit}")?;
    }
    Ok(())
}

// How many of the entries behind the first ones are as they were lent.
fn left_alone(slice: &[u32], hits: usize) -> usize {
    slice.iter().skip(hits).filter(|x| **x == LENT).count()
}

// What was answered, how many hits, the hits, how many entries are left alone, and what finishing says then.
fn fed(
    printer: &mut impl Write,
    searcher: Searcher,
    piece: &[u8],
    slice: &mut [u32],
) -> io::Result<Searcher> {
    printer.write_all(b"feed")?;
    let outcome = radio::feed::feed(searcher, piece, slice);
    done(printer, outcome.answer)?;
    write!(printer, " hits {} |", outcome.hits)?;
    named(printer, slice, outcome.hits)?;
    write!(
        printer,
        " | left {} finish",
        left_alone(slice, outcome.hits)
    )?;
    done(printer, radio::finish::finish(outcome.searcher))?;
    end(printer)?;
    Ok(outcome.searcher)
}

// A piece, and how many entries are lent for it, as many as there is room for.
fn one_piece(
    printer: &mut impl Write,
    cases: &mut Cases,
    searcher: Searcher,
) -> io::Result<Searcher> {
    let mut space = [0; 16400];
    let piece = cases.bytes(&mut space);
    let mut entries = [LENT; 65600];
    let many = cases.number().min(entries.len());
    fed(printer, searcher, piece, &mut entries[..many])
}

// How many pieces, and each; then what the searcher holds.
pub fn all_pieces(printer: &mut impl Write, cases: &mut Cases, first: Searcher) -> io::Result<()> {
    let mut searcher = first;
    for _ in 0..cases.number() {
        searcher = one_piece(printer, cases, searcher)?;
    }
    searcher_out(printer, searcher)
}
