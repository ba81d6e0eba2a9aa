// The end of a roll that came in.
ghost use Rattle.radio.specs.Paper.Operations.{Finishing};

use crate::bounds::kept;
use crate::records::Searcher;
use ground::refusal::Refusal;
use judge::judging::verdict;

pub fn finish(searcher: Searcher) -> Result<(), Refusal>
    ensures { Finishing searcher result }
{
    if let Err(refusal) = kept(searcher) {
        return Err(refusal);
    }
    verdict(searcher.judge)
}
