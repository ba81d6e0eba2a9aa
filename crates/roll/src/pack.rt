// Packing a text under a table.
ghost use Rattle.std.specs.Prelude.{◌≡◌};
ghost use Rattle.roll.specs.Paper.Operations.{no_roll, Packing};

use ground::refusal::Refusal;
use sound::records::Roll;
use stopper::table::{Table, good_table};
use store::fresh::store_text;
use store::measure::measure;
use store::words::Words;
use symbols::size::room_of;

// What stands beside a refusal where a record is answered too: no text.
pub fn no_roll(table: Table) -> Roll
    ensures { result ≡ no_roll table }
{
    Roll { table, n: 0, h: 0 }
}

pub fn pack(table: Table, text: &[u8], buf: &mut [u8]) -> Result<Roll, Refusal>
    ensures { Packing table text.now buf.old result buf.new }
{
    if !good_table(table) {
        return Err(Refusal::BadTable);
    }
    let room = room_of(table.code.k, buf.len());
    let mut words = Words::new();
    let taken = measure(table, room, text, &mut words)?;
    Ok(store_text(table, &words, text, taken, buf))
}
