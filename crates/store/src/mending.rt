// The directory of a sound roll, written from a character on.
ghost use Rattle.std.specs.Prelude.{◌≡◌, ◌++◌, ◌-◌, ◌≤◌, length, drop};
ghost use Rattle.ground.specs.Paper.Runs.{over, run};
ghost use Rattle.texts.specs.Paper.Directory.{entries, start_at, directory_of};
ghost use Rattle.sound.specs.Paper.Lengths.{lengths_of};

use sound::ends::{pass_ends, stops_by_byte};
use sound::records::SoundRoll;
use sound::stops::Stops;
use stopper::code::GoodCode;
use texts::entries::entries_for;

fn mend_entries(sound: &SoundRoll, dir: &mut [u32], from: usize, upto: usize, first: usize)
    requires { let s = sound.now in (from ≤ upto) × (upto ≤ s.roll.n) × (entries upto ≤ length dir.old) × (first ≡ start_at (lengths_of s.roll s.buf.now) from) }
    ensures { let s = sound.now in dir.new ≡ over dir.old (entries from) (run (directory_of (lengths_of s.roll s.buf.now)) (entries from) (entries upto)) (entries upto) }
{
    let SoundRoll { roll, buf, .. } = *sound;
    let good = GoodCode {
        code: roll.table.code,
    };
    let stops = Stops {
        good,
        by_byte: stops_by_byte(good),
    };
    let mut p = first;
    let mut j = from;
    for e in entries_for(from as u32)..entries_for(upto as u32) {
        p = pass_ends(&stops, buf, p, e * 32 - j);
        j = e * 32;
        dir[e] = p as u32;
    }
}

// Writes the entries of the characters from `from`, which starts at symbol first, up to `upto`; if there is none, no stops are counted.
pub fn mend(sound: &SoundRoll, dir: &mut [u32], from: usize, upto: usize, first: usize)
    requires { let s = sound.now in (from ≤ upto) × (upto ≤ s.roll.n) × (entries upto ≤ length dir.old) × (first ≡ start_at (lengths_of s.roll s.buf.now) from) }
    ensures { let s = sound.now in dir.new ≡ over dir.old (entries from) (run (directory_of (lengths_of s.roll s.buf.now)) (entries from) (entries upto)) (entries upto) }
{
    if entries_for(from as u32) == entries_for(upto as u32) {
        return;
    }
    mend_entries(sound, dir, from, upto, first);
}

// All entries, written from the start of dir.
pub fn make_sound(sound: &SoundRoll, dir: &mut [u32])
    requires { entries sound.now.roll.n ≤ length dir.old }
    ensures { let s = sound.now in dir.new ≡ directory_of (lengths_of s.roll s.buf.now) ++ drop (entries s.roll.n) dir.old }
{
    mend(sound, dir, 0, sound.roll.n as usize, 0);
}
