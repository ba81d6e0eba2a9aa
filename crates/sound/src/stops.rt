// How many codewords end in a byte, for each byte value.
ghost use Rattle.std.specs.Prelude.{◌≡◌};
ghost use Rattle.sound.specs.Helpers.Ends.{stops_by_byte};

use stopper::code::GoodCode;

// Worked out once for a call.
#[derive(Clone, Copy)]
pub struct Stops {
    pub good: GoodCode,
    pub by_byte: [u8; 256],
    pub ghost known: { by_byte ≡ stops_by_byte good.code },
}
