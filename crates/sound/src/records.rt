// The record of a roll: its table, how many characters it has and how many symbols. A sound roll in its buffer.
ghost use Rattle.std.specs.Prelude.{◌≡◌, ℕ, ◌<◌, length, get_or};
ghost use Rattle.sound.specs.Paper.Roll.{Sound};

use stopper::table::Table;

#[repr(C)]
#[derive(Clone, Copy)]
pub struct Roll {
    pub table: Table,
    pub n: u32,
    pub h: u32,
}

// Made where a roll is checked, and where one is written.
#[derive(Clone, Copy)]
pub struct SoundRoll<'a> {
    pub roll: Roll,
    pub buf: &'a [u8],
    pub ghost sound: { Sound roll buf.now },
    pub ghost places: { length roll.table.places ≡ 256 },
    pub ghost bytes: { (i : ℕ) → get_or buf.now i 0 < 256 },
}
