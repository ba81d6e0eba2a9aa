// The characters of codewords, from a symbol on: whole bytes by what they give, other symbols one by one.
ghost use Rattle.std.specs.Prelude.{◌≡◌, ◌++◌, map, ◌+◌, ◌*◌, ◌≤◌, ◌<◌, length, take, drop, get_or};
ghost use Rattle.ground.specs.Helpers.Bound.{limit_bound};
ghost use Rattle.symbols.specs.Paper.Symbols.{per};
ghost use Rattle.symbols.specs.Helpers.Widths.{Width};
ghost use Rattle.reading.specs.Paper.Reading.{row_reading, ranks_read};
ghost use Rattle.reading.specs.Helpers.Codewords.{row_of};
ghost use Rattle.moves.specs.Helpers.Moves.{part_in};
ghost use Rattle.unpacking.specs.Helpers.Gives.{KnownByByte, first_times, first_plus};
ghost use Rattle.unpacking.specs.Helpers.Tasks.{Written, WrittenBytes};

use crate::giving::{AllKnown, known_by_byte};
use crate::task::Task;
use moves::byte::{bound_of, ended, moved_by};
use moves::passing::Way;
use reading::packed::Packed;
use stopper::code::base_of;
use symbols::bits::{byte_of, per_byte};
use symbols::symbol::get;

// The byte of g whose lowest bit is bit `low`. Each byte is cut out where it is stored: the loop below is slower where all are cut out first.
fn part(g: u64, low: u32) -> u8
    requires { low < 64 }
    ensures { result ≡ part_in low g }
{
    ((g >> low) % 256) as u8
}

// The rank of the first codeword that ends in a byte that gives g.
fn first(g: u64, x: u32) -> usize
    ensures { result ≡ x * first_times g + first_plus g }
{
    x as usize * usize::from(part(g, 0)) + usize::from(part(g, 8))
}

// The first symbol of the byte after that of symbol p, or h.
fn border(k: u8, p: usize, h: usize) -> usize
    requires { (Width k) × (p ≤ h) × (h ≤ limit_bound) }
    ensures { (p ≤ result) × (result ≤ h) }
{
    h.min((byte_of(k, p) + 1) * per_byte(k))
}

// Symbols one by one, up to symbol `upto` or until m characters are written.
fn write_symbols(task: &Task, upto: usize, way: Way, out: &mut [u8]) -> Way
    requires { let t = task.now in (t.m ≤ length out.old) × (upto ≤ t.packed.h) × (way.at ≤ upto) × (way.n ≤ t.m) × (Written t out.old way) }
    ensures { let t = task.now in (result.at ≤ upto) × (result.n ≤ t.m) × (result.at < upto → result.n ≡ t.m)
        × (Written t out.new result) × (drop t.m out.new ≡ drop t.m out.old) }
{
    let Task {
        packed,
        places,
        m,
        ..
    } = *task;
    let Packed { ranks, buf, .. } = packed;
    let good = ranks.good;
    let few = u32::from(good.code.s);
    let many = base_of(good) - few;
    let mut x = way.x;
    let mut n = way.n;
    for at in way.at..upto {
        if m <= n {
            return Way { at, x, n };
        }
        let y = u32::from(get(good.code.k, buf, at));
        if y < few {
            out[n] = places[(x * few + y) as usize];
            x = 0;
            n += 1;
        } else {
            x = x * many + (y - few + 1);
        }
    }
    Way { at: upto, x, n }
}

// Whole bytes by what they give, from a byte on, up to byte `whole` or to one that is not known at the state in hand, as long as four characters are to be written:
// four are always stored, and the next byte's are stored over those that are too many. Here bytes are counted, not symbols.
fn write_known(task: &Task, all: &AllKnown, whole: usize, way: Way, out: &mut [u8]) -> Way
    requires { let t = task.now in (KnownByByte t.packed.ranks.good.code t.packed.ranks.sigma t.places.now all.now.go all.now.gives)
        × (t.m ≤ length out.old) × (whole * per t.packed.ranks.good.code.k ≤ t.packed.h) × (way.at ≤ whole) × (way.n ≤ t.m) × (WrittenBytes t out.old way) }
    ensures { let t = task.now in (way.at ≤ result.at) × (result.at ≤ whole) × (result.n ≤ t.m)
        × (WrittenBytes t out.new result) × (drop t.m out.new ≡ drop t.m out.old) }
{
    let Task {
        packed,
        places,
        m,
        ..
    } = *task;
    let buf = packed.buf;
    let mut x = way.x;
    let mut n = way.n;
    for at in way.at..whole {
        if m - n < 4 {
            return Way { at, x, n };
        }
        let b = usize::from(buf[at]);
        let e = all.go[b];
        if bound_of(e) <= x {
            return Way { at, x, n };
        }
        let g = all.gives[b];
        out[n] = places[first(g, x)];
        out[n + 1] = part(g, 16);
        out[n + 2] = part(g, 24);
        out[n + 3] = part(g, 32);
        x = moved_by(e, x);
        n += ended(e);
    }
    Way { at: whole, x, n }
}

// Whole bytes, where `way` stands before one.
fn write_bytes(task: &Task, way: Way, out: &mut [u8]) -> Way
    requires { let t = task.now in (t.m ≤ length out.old) × (way.at ≤ t.packed.h) × (way.n ≤ t.m) × (Written t out.old way) }
    ensures { let t = task.now in (result.at ≤ t.packed.h) × (result.n ≤ t.m)
        × (Written t out.new result) × (drop t.m out.new ≡ drop t.m out.old) }
{
    let k = task.packed.ranks.good.code.k;
    let at = byte_of(k, way.at);
    if at * per_byte(k) != way.at {
        return way;
    }
    let all = known_by_byte(task.packed.ranks, task.places);
    let known = write_known(
        task,
        &all,
        byte_of(k, task.packed.h),
        Way { at, ..way },
        out,
    );
    Way {
        at: known.at * per_byte(k),
        ..known
    }
}

// The characters of the task's codewords, written from the start of out.
pub fn unpack_from(task: &Task, out: &mut [u8])
    requires { task.now.m ≤ length out.old }
    ensures { let t = task.now in let s = t.packed in
        out.new ≡ take t.m (map (λ rank. get_or t.places.now rank 0) (ranks_read (row_reading s.ranks.good.code s.ranks.sigma (row_of s) t.p))) ++ drop t.m out.old }
{
    let Task { packed, p, .. } = *task;
    let first = border(packed.ranks.good.code.k, p, packed.h);
    let begun = write_symbols(task, first, Way { at: p, x: 0, n: 0 }, out);
    let later = write_bytes(task, begun, out);
    write_symbols(task, packed.h, later, out);
}
