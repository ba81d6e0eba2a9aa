// The program: standard input to the report to standard output, and nothing else.
// The answer on any input is the answer on its first 16,450 bytes (the law first_bytes_lem of the crate report), so no more are read.
// Where a read or a write fails, it ends with that error.
#![tactic(auto)]

ghost use Rattle.std.specs.Prelude.{◌≤◌, length, IfOk};

use report::program::report;
use std::io::{self, Read};

fn main(rt: HostRuntime) -> io::Result<()> {
    let mut input = [0u8; 16450];
    let n = read_full(&mut rt.reader(), &mut input)?;
    answer(&rt, &input[..n])
}

// What comes, until the room is full or the input ends: how many bytes. `casebook` has the same: a program that is sold rests on no crate of cases.
fn read_full(reader: &mut impl Read, room: &mut [u8]) -> io::Result<usize>
    ensures { IfOk result (λ n. n ≤ length room.new) }
{
    let mut n: usize = 0;
    // A while: how many bytes come at once is the reader's.
    while n < room.len() {
        let came = reader.read(&mut room[n..])?;
        if came == 0 {
            break;
        }
        n += came;
    }
    Ok(n)
}

fn answer(rt: &impl Print, input: &[u8]) -> io::Result<()> {
    let mut out = [0u8; 147456];
    let long = report(input, &mut out);
    rt.write_all(&out[..long])
}
