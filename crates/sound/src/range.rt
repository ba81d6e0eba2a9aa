// A range of a sound roll's text.
ghost use Rattle.std.specs.Prelude.{◌≡◌, ◌++◌, ◌-◌, ◌≤◌, length, drop};
ghost use Rattle.ground.specs.Paper.Runs.{run};
ghost use Rattle.texts.specs.Paper.Directory.{start_at};
ghost use Rattle.sound.specs.Paper.Roll.{text_of};
ghost use Rattle.sound.specs.Paper.Lengths.{lengths_of};

use crate::ends::pass_first;
use crate::records::SoundRoll;
use reading::codewords::codeword_at;
use reading::packed::Packed;
use stopper::code::{GoodCode, Ranks};
use unpacking::range::unpack_from;
use unpacking::task::Task;

// For fewer characters it is not worth while to work out what bytes give.
const FEW: usize = 2048;

// As unpack_sound, codeword by codeword from symbol `first` on, where character `start` starts.
fn unpack_each(sound: &SoundRoll, first: usize, start: usize, end: usize, out: &mut [u8])
    requires { let s = sound.now in
        (start ≤ end) × (end ≤ s.roll.n) × (end - start ≤ length out.old) × (first ≡ start_at (lengths_of s.roll s.buf.now) start) }
    ensures { out.new ≡ run (text_of sound.now.roll sound.now.buf.now) start end ++ drop (end - start) out.old }
{
    let SoundRoll { roll, buf, .. } = *sound;
    let table = roll.table;
    let packed = Packed {
        ranks: Ranks {
            good: GoodCode { code: table.code },
            sigma: table.sigma as u32,
        },
        buf,
        h: roll.h as usize,
    };
    let mut p = first;
    for i in 0..end - start {
        let word = codeword_at(&packed, p).unwrap();
        out[i] = table.places[word.rank as usize];
        p = word.next;
    }
}

// The characters from start up to end of a sound roll, written from the start of out.
pub fn unpack_sound(sound: &SoundRoll, start: usize, end: usize, out: &mut [u8])
    requires { (start ≤ end) × (end ≤ sound.now.roll.n) × (end - start ≤ length out.old) }
    ensures { out.new ≡ run (text_of sound.now.roll sound.now.buf.now) start end ++ drop (end - start) out.old }
{
    let SoundRoll { roll, buf, .. } = *sound;
    let table = roll.table;
    let first = pass_first(table.code, buf, start);
    if end - start < FEW {
        unpack_each(sound, first, start, end, out);
    } else {
        let packed = Packed {
            ranks: Ranks {
                good: GoodCode { code: table.code },
                sigma: table.sigma as u32,
            },
            buf,
            h: roll.h as usize,
        };
        let task = Task {
            packed,
            places: &table.places,
            p: first,
            m: end - start,
        };
        unpack_from(&task, out);
    }
}
