// One state taken out of the row list. It may be any state. Words, count, rows and state go side by side, as in `maker`: the rows are lent for reading while
// the words grow, and a struct of both would be made anew at each step.
ghost use Rattle.std.specs.Prelude.{◌≡◌, ◌<◌, ◌≤◌, length};
ghost use Rattle.expressions.specs.Words.{node_in};
ghost use Rattle.ground.specs.Lists.{those};
ghost use Rattle.theory.specs.RowLists.{list_places};
ghost use Rattle.theory.specs.Stages.{hole_at, replaced_made, replaced_rows, remains_node, stand_in_made, eliminated_stage};
ghost use Rattle.elimination.specs.Inside.{Both, NodeOn, StageOn, StagesOn, NodeAndRows, NodeAndStage, stage_of, picked_by, picked_made, loop_made};

use crate::maker::Got;
use crate::rows::{Rows, Staged};
use crate::state::State;
use crate::{maker, rows};
use automaton::Refused;
use ground::Wide;
use theory::NodeRow;

// Which rows are joined: the looping ones of a state, its incoming ones, or every one. A closure in its place is no plainer: `join_rows` would
// have to promise something of its answers for every table.
#[derive(Clone, Copy, PartialEq, Eq, Debug)]
pub enum Pick {
    Looping(u32),
    Incoming(u32),
    Every,
}

// Is the row one of those?
fn picked(words: &[u32], row: NodeRow, pick: Pick) -> bool
    ensures { result ≡ picked_by pick row.target (node_in words.now row.node) }
{
    match pick {
        Pick::Looping(q) => row.target.wide() == q && maker::opens(words, row.node.wide(), q),
        Pick::Incoming(q) => row.target.wide() == q && !maker::opens(words, row.node.wide(), q),
        Pick::Every => true,
    }
}

// The nodes of some rows joined. Inline, since each caller then keeps the code of its own pick alone: a conversion takes a seventh less time by it.
#[inline(always)]
pub fn join_rows(
    words: &mut [u32],
    count: u32,
    rows: &[NodeRow],
    pick: Pick,
) -> Result<Got, Refused>
    ensures { NodeOn (NodeAndRows 0 rows.now) (λ table. picked_made pick (stage_of table rows.now)) words.old count words.new result }
{
    let mut got = Got { count, node: 0 };
    for &row in rows {
        if picked(words, row, pick) {
            got = maker::make_alt(words, got.count, got.node, row.node.wide())?;
        }
    }
    Ok(got)
}

// A, the looping rows joined, and then I, its iteration.
fn loop_node(words: &mut [u32], count: u32, rows: &[NodeRow], q: State) -> Result<Got, Refused>
    ensures { NodeOn (NodeAndRows (hole_at q.number) rows.now) (λ table. loop_made q.number (stage_of table rows.now)) words.old count words.new result }
{
    let a = join_rows(words, count, rows, Pick::Looping(q.number))?;
    maker::make_iter(words, a.count, q, a.node)
}

// After I also B, the incoming rows joined, and X, which stands in for q.
fn stand_in(words: &mut [u32], count: u32, rows: &[NodeRow], q: State) -> Result<Got, Refused>
    ensures { NodeOn (NodeAndRows (hole_at q.number) rows.now) (λ table. stand_in_made q.number (stage_of table rows.now)) words.old count words.new result }
{
    let i = loop_node(words, count, rows, q)?;
    let b = join_rows(words, i.count, rows, Pick::Incoming(q.number))?;
    maker::make_cat(words, b.count, q, i.node, b.node)
}

// The node of a row that stays: an outgoing row's new one, any other row's own.
fn replace(
    words: &mut [u32],
    count: u32,
    q: State,
    standin: u32,
    row: NodeRow,
) -> Result<Got, Refused>
    requires { row.target ≡ q.number → ⊥ }
    ensures { NodeOn (Both row.node standin) (λ table. replaced_made q.number standin table row) words.old count words.new result }
{
    let node = row.node.wide();
    if maker::opens(words, node, q.number) {
        return maker::make_cat(words, count, q, node, standin);
    }
    Ok(Got { count, node })
}

// The outgoing rows of q replaced at their places; its looping and incoming rows go.
fn replace_rows(words: &mut [u32], x: Got, rows: &[NodeRow], q: State) -> Result<Staged, Refused>
    requires { length rows.now ≤ list_places }
    ensures { StageOn (NodeAndRows x.node rows.now) (λ table. replaced_rows q.number x.node table (those (remains_node q.number table) rows.now)) words.old x.count words.new result }
{
    let mut list = Rows::new();
    let mut count = x.count;
    for &row in rows {
        if row.target.wide() != q.number {
            let got = replace(words, count, q, x.node, row)?;
            count = got.count;
            list.push(rows::row(got.node, row.target));
        }
    }
    Ok(Staged { count, list })
}

// State q taken out.
pub fn take_out(words: &mut [u32], staged: &Staged, q: State) -> Result<Staged, Refused>
    ensures { StagesOn (NodeAndStage (hole_at q.number)) (eliminated_stage q.number) words.old staged.now words.new result }
{
    let listed = staged.list.rows();
    let x = stand_in(words, staged.count, listed, q)?;
    replace_rows(words, x, listed, q)
}
