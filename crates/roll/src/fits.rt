// What check and read one both ask first: that the table is good and h within the room.
ghost use Rattle.roll.specs.Helpers.Refused.{Fitting};

use ground::refusal::Refusal;
use sound::records::Roll;
use stopper::table::good_table;
use symbols::size::room_of;

pub fn fits(roll: Roll, buf: &[u8]) -> Result<(), Refusal>
    ensures { Fitting roll buf.now result }
{
    if !good_table(roll.table) {
        return Err(Refusal::BadTable);
    }
    if room_of(roll.table.code.k, buf.len()) < roll.h as usize {
        return Err(Refusal::BadSymbolCount(roll.h as u64));
    }
    Ok(())
}
