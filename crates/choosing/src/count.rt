// Counting a text.
ghost use Rattle.std.specs.Prelude.{◌≡◌, ◌≤◌, length};
ghost use Rattle.ground.specs.Paper.Limit.{limit};
ghost use Rattle.ground.specs.Paper.Rows.{zeros};
ghost use Rattle.choosing.specs.Paper.Choosing.{counts_of};
ghost use Rattle.choosing.specs.Paper.Operations.{Counting};

use ground::refusal::Refusal;

#[tactic(auto, unfolding(ground::specs::Paper::Rows::zeros))]
fn clear(counts: &mut [u32])
    ensures { counts.new ≡ zeros (length counts.old) }
{
    counts.fill(0);
}

fn tally(text: &[u8], counts: &mut [u32])
    requires { (length text.now ≤ limit) × (counts.old ≡ zeros 256) }
    ensures { counts.new ≡ counts_of text.now }
{
    for b in text {
        counts[usize::from(*b)] += 1;
    }
}

pub fn count(text: &[u8], counts: &mut [u32]) -> Result<(), Refusal>
    ensures { Counting text.now counts.old result counts.new }
{
    if counts.len() != 256 {
        return Err(Refusal::BadCounts(counts.len() as u64));
    }
    let most = ground::limit();
    if most < text.len() {
        return Err(Refusal::NoRoom(most as u64));
    }
    clear(counts);
    tally(text, counts);
    Ok(())
}
