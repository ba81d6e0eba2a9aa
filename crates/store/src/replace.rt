// A run of a sound roll replaced where it lies: what still fits behind it, its symbols, and the directory.
ghost use Rattle.std.specs.Prelude.{◌≡◌, ◌+◌, ◌-◌, ◌≤◌, ◌<◌, drop};
ghost use Rattle.stopper.specs.Paper.Table.{characters};
ghost use Rattle.texts.specs.Paper.Directory.{start_at};
ghost use Rattle.sound.specs.Paper.Roll.{record_of, text_of};
ghost use Rattle.sound.specs.Paper.Lengths.{lengths_of};
ghost use Rattle.store.specs.Paper.Fitting.{first_over};
ghost use Rattle.store.specs.Paper.Stored.{bytes_after, directory_after};
ghost use Rattle.store.specs.Helpers.Replacements.{ReplacesBy, replaced_by, text_with};
ghost use Rattle.store.specs.Helpers.Replacing.{changed_upto, Replaceable};

use crate::mending::mend;
use crate::replacement::Replacement;
use crate::words::write_text;
use sound::ends::end_at;
use sound::records::{Roll, SoundRoll};
use symbols::run::{clear, clear_unused, down, up};
use texts::entries::{clear_entries, entries_for};

// Characters from start up to end, and the symbols from first up to last that they take.
#[derive(Clone, Copy)]
pub struct Run {
    pub start: usize,
    pub end: usize,
    pub first: usize,
    pub last: usize,
}

// The number of the first character from `from`, which starts at symbol first, whose codeword does not fit in the room left; or n.
pub fn first_over(sound: &SoundRoll, from: usize, first: usize, room: usize) -> usize
    requires { let s = sound.now in (from ≤ s.roll.n) × (first ≡ start_at (lengths_of s.roll s.buf.now) from) }
    ensures { let s = sound.now in result ≡ from + first_over s.roll.table.code (characters s.roll.table) room (drop from (text_of s.roll s.buf.now)) }
{
    let SoundRoll { roll, buf, .. } = *sound;
    let n = roll.n as usize;
    let mut left = room;
    let mut p = first;
    for j in from..n {
        let next = end_at(roll.table.code, buf, p);
        if left < next - p {
            return j;
        }
        left -= next - p;
        p = next;
    }
    n
}

// The new symbols are more than the old: the tail goes up, and the rest of the last byte is cleared.
fn grow(k: u8, new: &Replacement, buf: &mut [u8], h: usize)
    requires { ReplacesBy k new.now buf.old h × (new.now.run.last - new.now.run.first < new.now.taken) }
    ensures { buf.new ≡ replaced_by k new.now buf.old h }
{
    let Replacement {
        words,
        text,
        taken,
        run,
    } = *new;
    let by = taken - (run.last - run.first);
    up(k, buf, run.last, h, by);
    write_text(k, words, text, buf, run.first);
    clear_unused(k, buf, h + by);
}

// The new symbols are fewer than the old: the tail goes down, and what it leaves behind is cleared. Not one function with `grow`: all but the text is the
// other way round.
fn shrink(k: u8, new: &Replacement, buf: &mut [u8], h: usize)
    requires { ReplacesBy k new.now buf.old h × (new.now.taken < new.now.run.last - new.now.run.first) }
    ensures { buf.new ≡ replaced_by k new.now buf.old h }
{
    let Replacement {
        words,
        text,
        taken,
        run,
    } = *new;
    let by = run.last - run.first - taken;
    down(k, buf, run.last, h, by);
    write_text(k, words, text, buf, run.first);
    clear(k, buf, h - by, h);
}

// The symbols of a run give way to those of a text; the tail, up to symbol h, moves by as much as they differ.
fn replace_symbols(k: u8, new: &Replacement, buf: &mut [u8], h: usize)
    requires { ReplacesBy k new.now buf.old h }
    ensures { buf.new ≡ replaced_by k new.now buf.old h }
{
    let run = new.run;
    if run.last - run.first < new.taken {
        grow(k, new, buf, h);
        return;
    }
    if new.taken < run.last - run.first {
        shrink(k, new, buf, h);
        return;
    }
    write_text(k, new.words, new.text, buf, run.first);
}

// Up to which character entries change: with as many characters and symbols as before, those behind the run stay.
fn changed_upto(run: Run, length: usize, taken: usize, count: usize) -> usize
    requires { (run.start ≤ run.end) × (run.first ≤ run.last) }
    ensures { result ≡ changed_upto run length taken count }
{
    if length != run.end - run.start {
        return count;
    }
    if taken != run.last - run.first {
        return count;
    }
    run.end
}

// A run of a sound roll with a right directory gives way to a text of so many symbols.
pub fn replace(roll: Roll, new: &Replacement, buf: &mut [u8], dir: &mut [u32]) -> Roll
    requires { let n = new.now in Replaceable roll n.words.now.lengths n.words.now.symbols buf.old dir.old n.run n.text.now n.taken }
    ensures record { result ≡ record_of roll.table (text_with roll buf.old new.now) }
    ensures bytes { buf.new ≡ bytes_after roll (text_with roll buf.old new.now) buf.old }
    ensures directory { dir.new ≡ directory_after roll (text_with roll buf.old new.now) dir.old }
{
    let h = roll.h as usize;
    replace_symbols(roll.table.code.k, new, buf, h);
    let Replacement {
        text,
        taken,
        run,
        ..
    } = *new;
    let count = run.start + text.len() + (roll.n as usize - run.end);
    let after = Roll {
        table: roll.table,
        n: count as u32,
        h: (run.first + taken + (h - run.last)) as u32,
    };
    let upto = changed_upto(run, text.len(), taken, count);
    let now: &[u8] = buf;
    let sound = SoundRoll {
        roll: after,
        buf: now,
    };
    mend(&sound, dir, run.start, upto, run.first);
    clear_entries(dir, entries_for(after.n), entries_for(roll.n));
    after
}
