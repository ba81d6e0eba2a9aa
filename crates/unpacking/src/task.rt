// What is unpacked: codewords of packed symbols.
ghost use Rattle.unpacking.specs.Helpers.Gives.{Unpacks};

use reading::packed::Packed;

// The first m codewords from symbol p on, all good. The character of each rank stands in `places`.
#[derive(Clone, Copy)]
pub struct Task<'a, 'b> {
    pub packed: Packed<'a>,
    pub places: &'b [u8; 256],
    pub p: usize,
    pub m: usize,
    pub ghost unpacks: { Unpacks packed.ranks.good.code packed.ranks.sigma packed.buf.now packed.h p m },
}
