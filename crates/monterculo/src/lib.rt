// The operations as callers in C and Rust take them; `monterculo_c` exports them under these names.
//
// Tables, codewords, rolls and searchers come in and are answered by value, and nothing is written but what is lent: a record that grows changes no
// signature. Beside them stand the refusal's number, 0 for accepted work, and the refusal's value or what is answered.

#![tactic(auto)]

pub mod taken;

ghost use Rattle.std.specs.Prelude.{◌≡◌, length};
ghost use Rattle.ground.specs.Paper.Refusals.{accepted, ◌then◌};
ghost use Rattle.stopper.specs.Paper.Operations.{codeword_says, codeword_given, character_says};
ghost use Rattle.choosing.specs.Paper.Operations.{count_says, count_leaves, choose_says, choose_table, choose_total};
ghost use Rattle.roll.specs.Paper.Operations.{pack_says, pack_roll, pack_leaves, check_says, unpack_says, unpack_leaves, make_says, make_leaves, read_says, search_says, search_leaves, edit_says, edit_roll, edit_leaves, edit_directory};
ghost use Rattle.radio.specs.Paper.Operations.{start_says, start_searcher, feed_says, feed_hits, feed_searcher, feed_leaves, finish_says};
ghost use Rattle.frames.specs.Paper.Operations.{write_says, write_leaves, first_says, first_roll, later_says, later_leaves, frames_says, frames_roll, frames_leaves};
ghost use Rattle.monterculo.specs.Paper.Taken.{told};

use choosing::choose::no_table;
use frames::read_first::no_record;
use radio::records::Searcher;
use radio::start::no_searcher;
use roll::pack::no_roll;
use sound::records::Roll;
use stopper::codeword_of::{Codeword, no_word};
use stopper::table::Table;
use taken::{Chosen, Coded, Fed, Rolled, Started, Told};

pub fn monterculo_count(text: &[u8], counts: &mut [u32]) -> Told
    ensures told { result ≡ told (count_says text.now counts.old then accepted 0) }
    ensures counts { counts.new ≡ count_leaves text.now counts.old }
{
    let counted = choosing::count::count(text, counts);
    Told::from(counted.map(|()| 0))
}

// Its value is the total.
pub fn monterculo_choose(k: u8, counts: &[u32]) -> Chosen
    ensures told { result.answer ≡ told (choose_says k counts.now then accepted (choose_total k counts.now)) }
    ensures table { result.table ≡ choose_table k counts.now }
{
    let chosen = choosing::choose::choose(k, counts);
    Chosen {
        answer: Told::from(chosen.map(|choice| choice.total)),
        table: chosen.map_or(no_table(k), |choice| choice.table),
    }
}

pub fn monterculo_codeword_of(table: Table, character: u8) -> Coded
    ensures told { result.answer ≡ told (codeword_says table character then accepted 0) }
    ensures word { result.word ≡ codeword_given table character }
{
    let coded = stopper::codeword_of::codeword_of(table, character);
    Coded {
        answer: Told::from(coded.map(|_| 0)),
        word: coded.unwrap_or(no_word()),
    }
}

// Its value is the character.
pub fn monterculo_character_of(table: Table, word: Codeword) -> Told
    ensures { result ≡ told (character_says table word) }
{
    let read = stopper::character_of::character_of(table, word);
    Told::from(read.map(u64::from))
}

pub fn monterculo_pack(table: Table, text: &[u8], buf: &mut [u8]) -> Rolled
    ensures told { result.answer ≡ told (pack_says table text.now buf.old then accepted 0) }
    ensures roll { result.roll ≡ pack_roll table text.now buf.old }
    ensures buf { buf.new ≡ pack_leaves table text.now buf.old }
{
    let packed = roll::pack::pack(table, text, buf);
    Rolled {
        answer: Told::from(packed.map(|_| 0)),
        roll: packed.unwrap_or(no_roll(table)),
    }
}

pub fn monterculo_check(roll: Roll, buf: &[u8]) -> Told
    ensures { result ≡ told (check_says roll buf.now then accepted 0) }
{
    let checked = roll::check::check(roll, buf);
    Told::from(checked.map(|()| 0))
}

pub fn monterculo_unpack(roll: Roll, buf: &[u8], start: usize, end: usize, out: &mut [u8]) -> Told
    ensures told { result ≡ told (unpack_says roll buf.now start end out.old then accepted 0) }
    ensures out { out.new ≡ unpack_leaves roll buf.now start end out.old }
{
    let unpacked = roll::unpack::unpack(roll, buf, start, end, out);
    Told::from(unpacked.map(|()| 0))
}

pub fn monterculo_make_directory(roll: Roll, buf: &[u8], dir: &mut [u32]) -> Told
    ensures told { result ≡ told (make_says roll buf.now dir.old then accepted 0) }
    ensures dir { dir.new ≡ make_leaves roll buf.now dir.old }
{
    let made = roll::make_directory::make_directory(roll, buf, dir);
    Told::from(made.map(|()| 0))
}

// Its value is the character.
pub fn monterculo_read_one(roll: Roll, buf: &[u8], dir: &[u32], place: usize) -> Told
    ensures { result ≡ told (read_says roll buf.now dir.now place) }
{
    let read = roll::read_one::read_one(roll, buf, dir, place);
    Told::from(read.map(u64::from))
}

// Its value is the total.
pub fn monterculo_search(roll: Roll, buf: &[u8], pattern: &[u8], slice: &mut [u32]) -> Told
    ensures told { result ≡ told (search_says roll buf.now pattern.now) }
    ensures slice { slice.new ≡ search_leaves roll buf.now pattern.now slice.old }
{
    let found = roll::search::search(roll, buf, pattern, slice);
    Told::from(found.map(u64::from))
}

// Its value is the total. What it answers and writes is what `monterculo_search` does.
pub fn monterculo_search_jumping(roll: Roll, buf: &[u8], pattern: &[u8], slice: &mut [u32]) -> Told
    ensures told { result ≡ told (search_says roll buf.now pattern.now) }
    ensures slice { slice.new ≡ search_leaves roll buf.now pattern.now slice.old }
{
    let found = jump::search_jumping::search_jumping(roll, buf, pattern, slice);
    Told::from(found.map(u64::from))
}

// A refused edit answers the roll that came in.
pub fn monterculo_edit(
    roll: Roll,
    buf: &mut [u8],
    dir: &mut [u32],
    start: usize,
    end: usize,
    text: &[u8],
) -> Rolled
    ensures told { result.answer ≡ told (edit_says roll buf.old dir.old start end text.now then accepted 0) }
    ensures roll { result.roll ≡ edit_roll roll buf.old dir.old start end text.now }
    ensures buf { buf.new ≡ edit_leaves roll buf.old dir.old start end text.now }
    ensures dir { dir.new ≡ edit_directory roll buf.old dir.old start end text.now }
{
    let edited = roll::edit::edit(roll, buf, dir, start, end, text);
    Rolled {
        answer: Told::from(edited.answer.map(|()| 0)),
        roll: edited.roll,
    }
}

// Its value is the bytes written.
pub fn monterculo_write_frames(roll: Roll, buf: &[u8], out: &mut [u8]) -> Told
    ensures told { result ≡ told (write_says roll buf.now out.old) }
    ensures out { out.new ≡ write_leaves roll buf.now out.old }
{
    let written = frames::write_frames::write_frames(roll, buf, out);
    Told::from(written.map(u64::from))
}

// A refused text answers a record that is all 0.
pub fn monterculo_read_frames(text: &[u8], buf: &mut [u8]) -> Rolled
    ensures told { result.answer ≡ told (frames_says text.now buf.old then accepted 0) }
    ensures roll { result.roll ≡ frames_roll text.now buf.old }
    ensures buf { buf.new ≡ frames_leaves text.now buf.old }
{
    let came = frames::read_frames::read_frames(text, buf);
    Rolled {
        answer: Told::from(came.map(|_| 0)),
        roll: came.unwrap_or(no_record()),
    }
}

// A refused line answers a record that is all 0.
pub fn monterculo_read_first(line: &[u8]) -> Rolled
    ensures told { result.answer ≡ told (first_says line.now then accepted 0) }
    ensures roll { result.roll ≡ first_roll line.now }
{
    let came = frames::read_first::read_first(line);
    Rolled {
        answer: Told::from(came.map(|_| 0)),
        roll: came.unwrap_or(no_record()),
    }
}

// Its value is the bytes written.
pub fn monterculo_read_frame(line: &[u8], out: &mut [u8]) -> Told
    ensures told { result ≡ told (later_says line.now out.old) }
    ensures out { out.new ≡ later_leaves line.now out.old }
{
    let came = frames::read_frame::read_frame(line, out);
    Told::from(came.map(u64::from))
}

// A refused start answers a searcher of an empty pattern, which is refused in its turn.
pub fn monterculo_start(roll: Roll, pattern: &[u8]) -> Started
    ensures told { result.answer ≡ told (start_says roll pattern.now then accepted 0) }
    ensures searcher { result.searcher ≡ start_searcher roll pattern.now }
{
    let started = radio::start::start(roll, pattern);
    Started {
        answer: Told::from(started.map(|_| 0)),
        searcher: started.unwrap_or(no_searcher(roll)),
    }
}

// Its value is the number of hits. A refused piece answers the searcher that came in, but for a bad codeword met in it.
pub fn monterculo_feed(searcher: Searcher, piece: &[u8], slice: &mut [u32]) -> Fed
    ensures told { result.answer ≡ told (feed_says searcher piece.now slice.old then accepted (length (feed_hits searcher piece.now slice.old))) }
    ensures hits { result.hits ≡ length (feed_hits searcher piece.now slice.old) }
    ensures searcher { result.searcher ≡ feed_searcher searcher piece.now slice.old }
    ensures slice { slice.new ≡ feed_leaves searcher piece.now slice.old }
{
    let fed = radio::feed::feed(searcher, piece, slice);
    Fed {
        answer: Told::from(fed.answer.map(|()| fed.hits as u64)),
        hits: fed.hits,
        searcher: fed.searcher,
    }
}

pub fn monterculo_finish(searcher: Searcher) -> Told
    ensures { result ≡ told (finish_says searcher then accepted 0) }
{
    let finished = radio::finish::finish(searcher);
    Told::from(finished.map(|()| 0))
}
