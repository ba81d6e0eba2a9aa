// What a case is given: numbers, rows of bytes, tables, rolls.
ghost use Rattle.std.specs.Prelude.{◌≤◌, length, IfOk};

use sound::records::Roll;
use std::io::{self, Read};
use stopper::code::even_code;
use stopper::table::Table;

// What comes, until the room is full or the input ends: how many bytes. `notice` has the same: a program that is sold rests on no crate of cases.
pub fn read_full(reader: &mut impl Read, room: &mut [u8]) -> io::Result<usize>
    ensures { IfOk result (λ n. n ≤ length room.new) }
{
    let mut n: usize = 0;
    // A while: how many bytes come at once is the reader's.
    while n < room.len() {
        let came = reader.read(&mut room[n..])?;
        if came == 0 {
            break;
        }
        n += came;
    }
    Ok(n)
}

// Past this a number is cut off.
const MOST: usize = 1_000_000_000_000;

// Cases, read from the front on: what is left of them.
#[derive(Clone, Copy)]
pub struct Cases<'a> {
    left: &'a [u8],
}

impl<'a> Cases<'a> {
    pub fn of(input: &'a [u8]) -> Cases<'a> {
        Cases { left: input }
    }

    // To the first digit, past blanks and comments.
    fn skip_blanks(&mut self) {
        let mut comment = false;
        // A while: it stays at the digit.
        while let Some((b, rest)) = self.left.split_first() {
            match *b {
                b'#' => comment = true,
                b'\n' => comment = false,
                b'0'..=b'9' if !comment => break,
                _ => {}
            }
            self.left = rest;
        }
    }

    // The next number, cut off above a million million; 0 where there is none.
    pub fn number(&mut self) -> usize {
        self.skip_blanks();
        let mut value = 0;
        // A while: it stays at the first byte that is no digit.
        while let Some((b, rest)) = self.left.split_first() {
            if !b.is_ascii_digit() || MOST < value {
                break;
            }
            value = 10 * value + usize::from(*b - b'0');
            self.left = rest;
        }
        value
    }

    // The next number's low 8 bits, and its low 32.
    pub fn byte(&mut self) -> u8 {
        (self.number() % 256) as u8
    }

    pub fn word(&mut self) -> u32 {
        (self.number() % 4294967296) as u32
    }

    // A row of bytes, as many as there is room for.
    pub fn bytes<'r>(&mut self, row: &'r mut [u8]) -> &'r mut [u8] {
        let mut filled = 0;
        for _ in 0..self.number() {
            let many = self.number();
            let first = self.byte();
            let step = self.byte();
            filled += rising(&mut row[filled..], many, first, step);
        }
        &mut row[..filled]
    }

    // A row of numbers, how many and then each, as many as there is room for.
    pub fn numbers<'r>(&mut self, row: &'r mut [u32]) -> &'r mut [u32] {
        let many = self.number().min(row.len());
        for x in &mut row[..many] {
            *x = self.word();
        }
        &mut row[..many]
    }

    pub fn table(&mut self) -> Table {
        let k = self.byte();
        let stoppers = self.byte();
        let sigma = (self.number() % 65536) as u16;
        let mut places = [0; 256];
        self.bytes(&mut places);
        Table {
            code: even_code(k, stoppers),
            sigma,
            places,
        }
    }

    pub fn roll(&mut self) -> Roll {
        let table = self.table();
        let n = self.word();
        let h = self.word();
        Roll { table, n, h }
    }
}

// Bytes that rise by a step, as many as there is room for; how many they are.
fn rising(row: &mut [u8], many: usize, first: u8, step: u8) -> usize
    ensures { result ≤ length row.new }
{
    let many = many.min(row.len());
    let mut b = first;
    for x in &mut row[..many] {
        *x = b;
        b = b.wrapping_add(step);
    }
    many
}
