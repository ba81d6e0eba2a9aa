// A text stored in a buffer of its own.
ghost use Rattle.std.specs.Prelude.{◌≡◌, ◌≤◌, T, length};
ghost use Rattle.stopper.specs.Paper.Table.{good_table};
ghost use Rattle.symbols.specs.Paper.Symbols.{room};
ghost use Rattle.sound.specs.Paper.Roll.{symbols_for, record_of};
ghost use Rattle.store.specs.Paper.Stored.{packed_into};
ghost use Rattle.store.specs.Helpers.Measured.{Spelled};

use crate::words::{Words, write_text};
use sound::records::Roll;
use stopper::table::Table;
use symbols::run::clear_unused;

// From symbol 0 on; the rest of the last byte is cleared.
pub fn store_text(table: Table, words: &Words, text: &[u8], taken: usize, buf: &mut [u8]) -> Roll
    requires { T (good_table table) × Spelled table words.now.lengths words.now.symbols text.now taken × (taken ≤ room table.code.k (length buf.old)) }
    ensures record { result ≡ record_of table text.now }
    ensures bytes { buf.new ≡ packed_into table.code.k (symbols_for table text.now) buf.old }
{
    let k = table.code.k;
    write_text(k, words, text, buf, 0);
    clear_unused(k, buf, taken);
    Roll {
        table,
        n: text.len() as u32,
        h: taken as u32,
    }
}
