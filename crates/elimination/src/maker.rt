// Making nodes on the lent words, by the rules that spare some. A maker goes on from a table of so many nodes, and is refused where there is no
// room for what it makes. The words and the number of nodes go side by side: a struct with the words in it as a `&mut` would have to name that
// reference in every promise.
ghost use Rattle.std.specs.Prelude.{◌≡◌, ◌&&◌, ◌<◌, eqb, length};
ghost use Rattle.sets.specs.Members.{size, state_width};
ghost use Rattle.expressions.specs.Nodes.{shape_of};
ghost use Rattle.expressions.specs.Words.{node_in};
ghost use Rattle.expressions.specs.Soundness.{Fits};
ghost use Rattle.theory.specs.Stages.{added, alt_made, cat_made, iter_made};
ghost use Rattle.elimination.specs.Inside.{Both, NodeOn, open_in};

use crate::state::State;
use automaton::Refused;
use expressions::{ALTERNATION, CONCATENATION, EMPTY, HOLE, ITERATION, Node};
use sets::StateSet;

// What a maker made: the number of nodes, and the node that was asked for. Both are words, as a table has them, and indices by `as`: from `u32` to
// `usize` there is no `From`.
#[derive(Clone, Copy, PartialEq, Eq, Debug)]
pub struct Got {
    pub count: u32,
    pub node: u32,
}

// The node at a number.
fn node_at(words: &[u32], node: u32) -> Node
    ensures { result ≡ node_in words.now node }
{
    expressions::node_at(words, node as usize)
}

// Is state q open in the node?
pub fn opens(words: &[u32], node: u32, q: u32) -> bool
    ensures { result ≡ open_in q (node_in words.now node) }
{
    StateSet::of_word(node_at(words, node).opens).has(q)
}

// For how many different states the node waits.
pub fn waits(words: &[u32], node: u32) -> u32
    ensures { result ≡ size state_width (node_in words.now node).opens }
{
    StateSet::of_word(node_at(words, node).opens).count()
}

// Is the node empty?
fn is_empty(words: &[u32], node: u32) -> bool
    ensures { result ≡ eqb (node_in words.now node).shape.kind 0 }
{
    node_at(words, node).shape.kind == EMPTY
}

// Is the node hole q?
fn is_hole(words: &[u32], node: u32, q: u32) -> bool
    ensures { result ≡ (eqb (node_in words.now node).shape.kind 1 && eqb q (node_in words.now node).shape.label) }
{
    let shape = node_at(words, node).shape;
    shape.kind == HOLE && shape.label == q
}

// A new node. The five numbers of its shape go one by one, so that the compiler sees the kind: a struct of five numbers crosses a call in memory.
pub fn new_node(
    words: &mut [u32],
    count: u32,
    kind: u32,
    label: u32,
    first: u32,
    second: u32,
    third: u32,
) -> Result<Got, Refused>
    ensures { NodeOn (λ table. Fits (length table) (shape_of kind label first second third)) (λ table. added table (shape_of kind label first second third)) words.old count words.new result }
{
    let number = count as usize;
    expressions::make(words, number, kind, label, first, second, third)?;
    Ok(Got {
        count: count + 1,
        node: count,
    })
}

// The alternation; with an empty side, the other side.
pub fn make_alt(words: &mut [u32], count: u32, left: u32, right: u32) -> Result<Got, Refused>
    ensures { NodeOn (Both left right) (λ table. alt_made table left right) words.old count words.new result }
{
    if is_empty(words, left) {
        return Ok(Got { count, node: right });
    }
    if is_empty(words, right) {
        return Ok(Got { count, node: left });
    }
    new_node(words, count, ALTERNATION, 0, left, right, 0)
}

// The concatenation over q; with hole q on the left, the right.
pub fn make_cat(
    words: &mut [u32],
    count: u32,
    q: State,
    left: u32,
    right: u32,
) -> Result<Got, Refused>
    ensures { NodeOn (Both left right) (λ table. cat_made q.number table left right) words.old count words.new result }
{
    if is_hole(words, left, q.number) {
        return Ok(Got { count, node: right });
    }
    new_node(words, count, CONCATENATION, q.number, left, right, 0)
}

// The iteration over q; of the empty node, hole q.
pub fn make_iter(words: &mut [u32], count: u32, q: State, child: u32) -> Result<Got, Refused>
    ensures { NodeOn (λ table. child < length table) (λ table. iter_made q.number table child) words.old count words.new result }
{
    if is_empty(words, child) {
        let node = q.number + 1;
        return Ok(Got { count, node });
    }
    new_node(words, count, ITERATION, q.number, child, 0, 0)
}
