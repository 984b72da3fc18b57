// The productive states: rounds over the rows until nothing changes.
ghost use Rattle.trees.specs.Runs.{ProductiveSet};

use crate::runner::Runner;
use automaton::SOURCE_PLACES;

// In each round a row adds its target where all of its sources are there. Symbols do not count.
pub fn rounds(runner: &Runner) -> u16
    ensures { ProductiveSet runner.now.rules result }
{
    let mut have: u16 = 0;
    loop {
        let more = runner.columns.scan(None, [have; SOURCE_PLACES]);
        let next = have | more;
        if next == have {
            return have;
        }
        have = next;
    }
}
