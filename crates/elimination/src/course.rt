// The course of a conversion: the start, the states, the join. Words and what else go side by side, as in `maker`, and the bound on k is a clause, as
// in `start`.
ghost use Rattle.std.specs.Prelude.{◌≤◌};
ghost use Rattle.sets.specs.Members.{state_width};
ghost use Rattle.automaton.specs.Answers.{held_by};
ghost use Rattle.theory.specs.RowLists.{ascending};
ghost use Rattle.theory.specs.Stages.{eliminated_stages, stage_after, converted};
ghost use Rattle.elimination.specs.Inside.{GivesNode, GivesStage, NodeAndStage, StagesOn};

use crate::given::Given;
use crate::maker::Got;
use crate::rows::Staged;
use crate::state::State;
use crate::step::Pick;
use crate::{start, step};
use automaton::Refused;

// The first k states taken out, the lowest first.
fn take_first(words: &mut [u32], mut staged: Staged, k: u32) -> Result<Staged, Refused>
    requires { k ≤ state_width }
    ensures { StagesOn (NodeAndStage k) (eliminated_stages (ascending k)) words.old staged words.new result }
{
    for number in 0..k {
        staged = step::take_out(words, &staged, State { number })?;
    }
    Ok(staged)
}

// The table and the list after the first k states.
pub fn partly(words: &mut [u32], given: &Given, k: u32) -> Result<Staged, Refused>
    requires { k ≤ (held_by given.now.value).states }
    ensures { GivesStage words.old (stage_after k (held_by given.now.value)) words.new result }
{
    let begun = start::begin(words, given)?;
    take_first(words, begun, k)
}

// All states, and the join of the rows that are left.
pub fn wholly(words: &mut [u32], given: &Given) -> Result<Got, Refused>
    ensures { GivesNode words.old (converted (held_by given.now.value)) words.new result }
{
    let staged = partly(words, given, given.states())?;
    step::join_rows(words, staged.count, staged.list.rows(), Pick::Every)
}
