// What every crate stands on: the limit, the refusals, and (in specs/) their order and rows of numbers.

#![tactic(auto)]

pub mod refusal;

ghost use Rattle.std.specs.Prelude.{◌≡◌};
ghost use Rattle.ground.specs.Paper.Limit.{limit};

// No symbol count exceeds this, and no counted text is longer.
pub const LIMIT: usize = 1048576;

pub fn limit() -> usize
    ensures { result ≡ limit }
{
    LIMIT
}
