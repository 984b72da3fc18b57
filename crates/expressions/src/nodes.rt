// One node: what its kind, label and children must keep, and its open set. A `u32` becomes a `usize` by `as`: there is no `From` from the one to the other.
ghost use Rattle.std.specs.Prelude.{◌≡◌, ◌<◌, map, length, take};
ghost use Rattle.sets.specs.Members.{one_set, union, state_width};
ghost use Rattle.ground.specs.Decides.{Decides};
ghost use Rattle.ground.specs.Lists.{All};
ghost use Rattle.expressions.specs.Nodes.{node_at, child_count, children, unused};
ghost use Rattle.expressions.specs.Soundness.{Labelled, Fits, union_all, cat_opens, opens_in, SoundNode, SoundNodes};
ghost use Rattle.expressions.specs.Inside.{nodes_of};

use crate::layout::nth;
use crate::{
    ALTERNATION, ARITY_STEP, CONCATENATION, EMPTY, HOLE, ITERATION, NODE_WIDTH, SYMBOL, Shape,
};
use ground::Wide;
use sets::StateSet;

// A constant is made by `as`, since no function of a trait is called in one.
const MOST_STATES: u32 = automaton::MOST_STATES as u32;

const MOST_SYMBOLS: u32 = automaton::MOST_SYMBOLS as u32;

const MOST_ARITY: u32 = automaton::MOST_ARITY as u32;

// Is the label that of a symbol that a file may have, with an arity that it may have?
fn symbol_fits(label: u32) -> bool
    ensures { Decides (Labelled 2 label) result }
{
    label / ARITY_STEP <= MOST_ARITY && label % ARITY_STEP < MOST_SYMBOLS
}

// Does the label suit the kind? A `match` on its number, as the requirements ask of the soundness check (12.12). Each kind has an arm of its own here, and hands on its own number of children below, so that the compiler makes code for each: where kinds share an arm, the check is up to half slower.
fn label_fits(kind: u32, label: u32) -> bool
    ensures { Decides (Labelled kind label) result }
{
    match kind {
        EMPTY => label == 0,
        HOLE => label < MOST_STATES,
        SYMBOL => symbol_fits(label),
        ALTERNATION => label == 0,
        CONCATENATION => label < MOST_STATES,
        ITERATION => label < MOST_STATES,
        _ => false,
    }
}

// Are the children, which are so many, earlier nodes than this, and the other places 0? In one pass: by `take` and `skip` the check is a fifth slower.
fn places_fit(number: usize, shape: Shape, used: u32) -> bool
    requires { used ≡ child_count shape.kind shape.label }
    ensures { Decides (All (λ c. c < number) (children shape) × All (λ c. c ≡ 0) (unused shape)) result }
{
    shape.places().iter().enumerate().all(|(place, child)| {
        if place < used as usize {
            (*child as usize) < number
        } else {
            *child == 0
        }
    })
}

// May the node of this number have this shape? Inline, since the check and `make` are a third slower where it is called.
#[inline]
#[tactic(auto, using(crate::proofs::KindLaws::counts), unfolding(crate::specs::Nodes::child_count))]
pub fn shape_fits(number: usize, shape: Shape) -> bool
    ensures { Decides (Fits number shape) result }
{
    label_fits(shape.kind, shape.label)
        && match shape.kind {
            SYMBOL => places_fit(number, shape, shape.label / ARITY_STEP),
            ALTERNATION | CONCATENATION => places_fit(number, shape, 2),
            ITERATION => places_fit(number, shape, 1),
            _ => places_fit(number, shape, 0),
        }
}

// The open word of a child.
fn opens_of(nodes: &[[u32; NODE_WIDTH]], child: u32) -> u32
    ensures { result ≡ (node_at (nodes_of nodes.now) child).opens }
{
    nth(nodes, child as usize).opens
}

// The union of the open sets of the children, which are so many.
fn union_opens(nodes: &[[u32; NODE_WIDTH]], shape: Shape, used: u32) -> u32
    requires { used ≡ child_count shape.kind shape.label }
    ensures { result ≡ union_all (map (λ c. (node_at (nodes_of nodes.now) c).opens) (children shape)) }
{
    let places = shape.places();
    let children = places.iter().take(used as usize);
    children
        .fold(
            StateSet::EMPTY,
            |set, child| set.union(StateSet::of_word(opens_of(nodes, *child))),
        )
        .0
        .wide()
}

// The open set of a concatenation over q.
fn cat_opens(q: u32, left: u32, right: u32) -> u32
    requires { q < state_width }
    ensures { result ≡ cat_opens q left right }
{
    let set = StateSet::of_word(left);
    if set.has(q) {
        set.without(q).union(StateSet::of_word(right)).0.wide()
    } else {
        left
    }
}

// The open set of an iteration over q: the child's with q.
fn iter_opens(q: u32, child: u32) -> u32
    ensures { result ≡ union state_width child (one_set state_width q) }
{
    StateSet::of_word(child).union(StateSet::one(q)).0.wide()
}

// The open set of a node, by those of its children among these nodes: a `match` on the kind's number (12.12). Inline, for the same reason.
#[inline]
pub fn open_of(nodes: &[[u32; NODE_WIDTH]], shape: Shape) -> u32
    requires { Labelled shape.kind shape.label }
    ensures { result ≡ opens_in (λ c. (node_at (nodes_of nodes.now) c).opens) shape }
{
    match shape.kind {
        HOLE => StateSet::one(shape.label).0.wide(),
        SYMBOL => union_opens(nodes, shape, shape.label / ARITY_STEP),
        ALTERNATION => union_opens(nodes, shape, 2),
        CONCATENATION => cat_opens(
            shape.label,
            opens_of(nodes, shape.first),
            opens_of(nodes, shape.second),
        ),
        ITERATION => iter_opens(shape.label, opens_of(nodes, shape.first)),
        _ => 0,
    }
}

// Does node i keep the rules, over the nodes before it?
fn node_sound(nodes: &[[u32; NODE_WIDTH]], i: usize) -> bool
    ensures { i < length nodes.now → Decides (SoundNode (take i (nodes_of nodes.now)) (node_at (nodes_of nodes.now) i)) result }
{
    let node = nth(nodes, i);
    shape_fits(i, node.shape) && node.opens == open_of(nodes, node.shape)
}

// Does every node keep the rules? By number, since a node is judged over the nodes before it.
pub fn all_sound(nodes: &[[u32; NODE_WIDTH]]) -> bool
    ensures { Decides (SoundNodes (nodes_of nodes.now)) result }
{
    (0..nodes.len()).all(|i| node_sound(nodes, i))
}
