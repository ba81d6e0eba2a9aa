// The directory of a sound roll compared, and gone by.
ghost use Rattle.std.specs.Prelude.{◌≡◌, ◌-◌, ◌≤◌, ◌<◌, MatchOption};
ghost use Rattle.texts.specs.Paper.Directory.{entries, start_at, directory_of, first_wrong};
ghost use Rattle.sound.specs.Paper.Lengths.{lengths_of, Right};

use crate::ends::{end_at, pass_ends, stops_by_byte};
use crate::records::SoundRoll;
use crate::stops::Stops;
use stopper::code::GoodCode;
use texts::entries::entries_for;

// The number of the first entry that is missing or wrong; none where all are right.
pub fn first_wrong(sound: &SoundRoll, dir: &[u32]) -> Option<usize>
    ensures { let roll = sound.now.roll in let buf = sound.now.buf.now in
        MatchOption result (Right roll buf dir.now) (λ e. (e ≡ first_wrong (directory_of (lengths_of roll buf)) dir.now) × (e < entries roll.n)) }
{
    let SoundRoll { roll, buf, .. } = *sound;
    let good = GoodCode {
        code: roll.table.code,
    };
    let stops = Stops {
        good,
        by_byte: stops_by_byte(good),
    };
    let last = entries_for(roll.n);
    let mut p: usize = 0;
    let mut j: usize = 0;
    for e in 0..last {
        if dir.len() <= e {
            return Some(e);
        }
        p = pass_ends(&stops, buf, p, e * 32 - j);
        j = e * 32;
        if dir[e] as usize != p {
            return Some(e);
        }
    }
    None
}

// The first symbol of character j, or the roll's end for j = n.
pub fn start_of(sound: &SoundRoll, dir: &[u32], j: usize) -> usize
    requires { let s = sound.now in Right s.roll s.buf.now dir.now × (j ≤ s.roll.n) }
    ensures { result ≡ start_at (lengths_of sound.now.roll sound.now.buf.now) j }
{
    let SoundRoll { roll, buf, .. } = *sound;
    if roll.n as usize <= j {
        return roll.h as usize;
    }
    let mut at = dir[j / 32] as usize;
    for _ in j / 32 * 32..j {
        at = end_at(roll.table.code, buf, at);
    }
    at
}
