// The operations for callers in C and Rust: the door that boxes come in by. What each does stands in `monterculo`, under the same name.
#![tactic(auto)]

ghost use Rattle.std.specs.Prelude.{◌≡◌, length};
ghost use Rattle.ground.specs.Paper.Refusals.{accepted, ◌then◌};
ghost use Rattle.stopper.specs.Paper.Operations.{codeword_says, codeword_given, character_says};
ghost use Rattle.choosing.specs.Paper.Operations.{count_says, count_leaves, choose_says, choose_table, choose_total};
ghost use Rattle.roll.specs.Paper.Operations.{pack_says, pack_roll, pack_leaves, check_says, unpack_says, unpack_leaves, make_says, make_leaves, read_says, search_says, search_leaves, edit_says, edit_roll, edit_leaves, edit_directory};
ghost use Rattle.radio.specs.Paper.Operations.{start_says, start_searcher, feed_says, feed_hits, feed_searcher, feed_leaves, finish_says};
ghost use Rattle.frames.specs.Paper.Operations.{write_says, write_leaves, first_says, first_roll, later_says, later_leaves, frames_says, frames_roll, frames_leaves};
ghost use Rattle.monterculo.specs.Paper.Taken.{told};

use monterculo::taken::{Chosen, Coded, Fed, Rolled, Started, Told};
use radio::records::Searcher;
use sound::records::Roll;
use stopper::codeword_of::Codeword;
use stopper::table::Table;

#[unsafe(no_mangle)]
pub extern "C" fn monterculo_count(text: &[u8], counts: &mut [u32]) -> Told
    ensures told { result ≡ told (count_says text.now counts.old then accepted 0) }
    ensures counts { counts.new ≡ count_leaves text.now counts.old }
{
    monterculo::monterculo_count(text, counts)
}

// Its value is the total.
#[unsafe(no_mangle)]
pub extern "C" fn monterculo_choose(k: u8, counts: &[u32]) -> Chosen
    ensures told { result.answer ≡ told (choose_says k counts.now then accepted (choose_total k counts.now)) }
    ensures table { result.table ≡ choose_table k counts.now }
{
    monterculo::monterculo_choose(k, counts)
}

#[unsafe(no_mangle)]
pub extern "C" fn monterculo_codeword_of(table: Table, character: u8) -> Coded
    ensures told { result.answer ≡ told (codeword_says table character then accepted 0) }
    ensures word { result.word ≡ codeword_given table character }
{
    monterculo::monterculo_codeword_of(table, character)
}

// Its value is the character.
#[unsafe(no_mangle)]
pub extern "C" fn monterculo_character_of(table: Table, word: Codeword) -> Told
    ensures { result ≡ told (character_says table word) }
{
    monterculo::monterculo_character_of(table, word)
}

#[unsafe(no_mangle)]
pub extern "C" fn monterculo_pack(table: Table, text: &[u8], buf: &mut [u8]) -> Rolled
    ensures told { result.answer ≡ told (pack_says table text.now buf.old then accepted 0) }
    ensures roll { result.roll ≡ pack_roll table text.now buf.old }
    ensures buf { buf.new ≡ pack_leaves table text.now buf.old }
{
    monterculo::monterculo_pack(table, text, buf)
}

#[unsafe(no_mangle)]
pub extern "C" fn monterculo_check(roll: Roll, buf: &[u8]) -> Told
    ensures { result ≡ told (check_says roll buf.now then accepted 0) }
{
    monterculo::monterculo_check(roll, buf)
}

#[unsafe(no_mangle)]
pub extern "C" fn monterculo_unpack(
    roll: Roll,
    buf: &[u8],
    start: usize,
    end: usize,
    out: &mut [u8],
) -> Told
    ensures told { result ≡ told (unpack_says roll buf.now start end out.old then accepted 0) }
    ensures out { out.new ≡ unpack_leaves roll buf.now start end out.old }
{
    monterculo::monterculo_unpack(roll, buf, start, end, out)
}

#[unsafe(no_mangle)]
pub extern "C" fn monterculo_make_directory(roll: Roll, buf: &[u8], dir: &mut [u32]) -> Told
    ensures told { result ≡ told (make_says roll buf.now dir.old then accepted 0) }
    ensures dir { dir.new ≡ make_leaves roll buf.now dir.old }
{
    monterculo::monterculo_make_directory(roll, buf, dir)
}

// Its value is the character.
#[unsafe(no_mangle)]
pub extern "C" fn monterculo_read_one(roll: Roll, buf: &[u8], dir: &[u32], place: usize) -> Told
    ensures { result ≡ told (read_says roll buf.now dir.now place) }
{
    monterculo::monterculo_read_one(roll, buf, dir, place)
}

// Its value is the total.
#[unsafe(no_mangle)]
pub extern "C" fn monterculo_search(
    roll: Roll,
    buf: &[u8],
    pattern: &[u8],
    slice: &mut [u32],
) -> Told
    ensures told { result ≡ told (search_says roll buf.now pattern.now) }
    ensures slice { slice.new ≡ search_leaves roll buf.now pattern.now slice.old }
{
    monterculo::monterculo_search(roll, buf, pattern, slice)
}

// Its value is the total. What it answers and writes is what `monterculo_search` does.
#[unsafe(no_mangle)]
pub extern "C" fn monterculo_search_jumping(
    roll: Roll,
    buf: &[u8],
    pattern: &[u8],
    slice: &mut [u32],
) -> Told
    ensures told { result ≡ told (search_says roll buf.now pattern.now) }
    ensures slice { slice.new ≡ search_leaves roll buf.now pattern.now slice.old }
{
    monterculo::monterculo_search_jumping(roll, buf, pattern, slice)
}

// A refused edit answers the roll that came in.
#[unsafe(no_mangle)]
pub extern "C" fn monterculo_edit(
    roll: Roll,
    buf: &mut [u8],
    dir: &mut [u32],
    start: usize,
    end: usize,
    text: &[u8],
) -> Rolled
    ensures told { result.answer ≡ told (edit_says roll buf.old dir.old start end text.now then accepted 0) }
    ensures roll { result.roll ≡ edit_roll roll buf.old dir.old start end text.now }
    ensures buf { buf.new ≡ edit_leaves roll buf.old dir.old start end text.now }
    ensures dir { dir.new ≡ edit_directory roll buf.old dir.old start end text.now }
{
    monterculo::monterculo_edit(roll, buf, dir, start, end, text)
}

// Its value is the bytes written.
#[unsafe(no_mangle)]
pub extern "C" fn monterculo_write_frames(roll: Roll, buf: &[u8], out: &mut [u8]) -> Told
    ensures told { result ≡ told (write_says roll buf.now out.old) }
    ensures out { out.new ≡ write_leaves roll buf.now out.old }
{
    monterculo::monterculo_write_frames(roll, buf, out)
}

// A refused text answers a record that is all 0.
#[unsafe(no_mangle)]
pub extern "C" fn monterculo_read_frames(text: &[u8], buf: &mut [u8]) -> Rolled
    ensures told { result.answer ≡ told (frames_says text.now buf.old then accepted 0) }
    ensures roll { result.roll ≡ frames_roll text.now buf.old }
    ensures buf { buf.new ≡ frames_leaves text.now buf.old }
{
    monterculo::monterculo_read_frames(text, buf)
}

// A refused line answers a record that is all 0.
#[unsafe(no_mangle)]
pub extern "C" fn monterculo_read_first(line: &[u8]) -> Rolled
    ensures told { result.answer ≡ told (first_says line.now then accepted 0) }
    ensures roll { result.roll ≡ first_roll line.now }
{
    monterculo::monterculo_read_first(line)
}

// Its value is the bytes written.
#[unsafe(no_mangle)]
pub extern "C" fn monterculo_read_frame(line: &[u8], out: &mut [u8]) -> Told
    ensures told { result ≡ told (later_says line.now out.old) }
    ensures out { out.new ≡ later_leaves line.now out.old }
{
    monterculo::monterculo_read_frame(line, out)
}

// A refused start answers a searcher of an empty pattern, which is refused in its turn.
#[unsafe(no_mangle)]
pub extern "C" fn monterculo_start(roll: Roll, pattern: &[u8]) -> Started
    ensures told { result.answer ≡ told (start_says roll pattern.now then accepted 0) }
    ensures searcher { result.searcher ≡ start_searcher roll pattern.now }
{
    monterculo::monterculo_start(roll, pattern)
}

// Its value is the number of hits. A refused piece answers the searcher that came in, but for a bad codeword met in it.
#[unsafe(no_mangle)]
pub extern "C" fn monterculo_feed(searcher: Searcher, piece: &[u8], slice: &mut [u32]) -> Fed
    ensures told { result.answer ≡ told (feed_says searcher piece.now slice.old then accepted (length (feed_hits searcher piece.now slice.old))) }
    ensures hits { result.hits ≡ length (feed_hits searcher piece.now slice.old) }
    ensures searcher { result.searcher ≡ feed_searcher searcher piece.now slice.old }
    ensures slice { slice.new ≡ feed_leaves searcher piece.now slice.old }
{
    monterculo::monterculo_feed(searcher, piece, slice)
}

#[unsafe(no_mangle)]
pub extern "C" fn monterculo_finish(searcher: Searcher) -> Told
    ensures { result ≡ told (finish_says searcher then accepted 0) }
{
    monterculo::monterculo_finish(searcher)
}
