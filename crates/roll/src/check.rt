// Checking a roll. Sound means that all checks pass.
ghost use Rattle.std.specs.Prelude.{◌+◌};
ghost use Rattle.roll.specs.Paper.Operations.{Checking};

use crate::fits::fits;
use ground::refusal::Refusal;
use moves::passing::read_all;
use reading::packed::Packed;
use sound::records::Roll;
use stopper::code::{GoodCode, Ranks};
use symbols::run::all_zero;
use symbols::size::unused;

pub fn check(roll: Roll, buf: &[u8]) -> Result<(), Refusal>
    ensures { Checking roll buf.now result }
{
    fits(roll, buf)?;
    let code = roll.table.code;
    let h = roll.h as usize;
    let packed = Packed {
        ranks: Ranks {
            good: GoodCode { code },
            sigma: roll.table.sigma as u32,
        },
        buf,
        h,
    };
    let count = read_all(&packed)?;
    if count != roll.n as usize {
        return Err(Refusal::BadCharacterCount(count as u64));
    }
    if !all_zero(code.k, buf, h, h + unused(code.k, h)) {
        return Err(Refusal::BadUnused);
    }
    Ok(())
}
