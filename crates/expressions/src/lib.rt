// Expressions: the node table, checked, measured and made.
#![tactic(auto)]

ghost use Rattle.std.specs.Prelude.{◌≡◌, MatchOption};
ghost use Rattle.expressions.specs.Nodes.{child_count, places, shape_of};
ghost use Rattle.expressions.specs.Words.{node_in, table_of};
ghost use Rattle.expressions.specs.Soundness.{Sound};
ghost use Rattle.expressions.specs.Inside.{nodes_of};
ghost use Rattle.expressions.specs.Making.{Makes};
ghost use Rattle.automaton.specs.Refusals.{refusal_of};
ghost use Rattle.expressions.specs.Answers.{SoundAnswer, Measures, measured_of};

use automaton::{Refusal, Refused};

mod layout;
mod nodes;
mod sizes;

// The words of a node.
pub const NODE_WIDTH: usize = 6;

// A symbol's label is the symbol and so many times its arity.
pub const ARITY_STEP: u32 = 256;

// The most nodes that a table may have.
pub const MOST_NODES: usize = 4096;

// The kinds of nodes. A table has kinds as numbers (7.2), so that these are numbers and no enum.
pub const EMPTY: u32 = 0;

pub const HOLE: u32 = 1;

pub const SYMBOL: u32 = 2;

pub const ALTERNATION: u32 = 3;

pub const CONCATENATION: u32 = 4;

pub const ITERATION: u32 = 5;

// What a node says: its kind, its label and three places for children.
#[repr(C)]
#[derive(Clone, Copy, PartialEq, Eq, Debug)]
pub struct Shape {
    pub kind: u32,
    pub label: u32,
    pub first: u32,
    pub second: u32,
    pub third: u32,
}

// A node: its shape, and the open set that follows from those of its children.
#[repr(C)]
#[derive(Clone, Copy, PartialEq, Eq, Debug)]
pub struct Node {
    pub shape: Shape,
    pub opens: u32,
}

// The written-out size of the answer's expression as C has it, 0 on a refusal. It stands beside `automaton::Extent` with a `From` of its own: the claims name its field `size`, and C gets another width.
#[repr(C)]
#[derive(Clone, Copy)]
pub struct Measured {
    pub refusal: Refusal,
    pub size: u32,
}

impl From<Result<u32, Refused>> for Measured {
    ghost from_gives = { λ r measured. measured ≡ measured_of r };

    fn from(r: Result<u32, Refused>) -> Measured {
        Measured {
            refusal: r.into(),
            size: r.unwrap_or(0),
        }
    }
}

impl Node {
    // The node with every number 0, which stands for a node that is not there: the promise of `node_at` asks for it (7.20).
    const EMPTY: Node = Node {
        shape: Shape {
            kind: EMPTY,
            label: 0,
            first: 0,
            second: 0,
            third: 0,
        },
        opens: 0,
    };
}

impl Shape {
    // How many of the places are used. A `match` on the kind's number: C and the promise pass it so (12.12).
    #[tactic(auto, using(crate::proofs::KindLaws::counts), unfolding(crate::specs::Nodes::child_count))]
    pub fn child_count(self) -> u32
        ensures { result ≡ child_count self.kind self.label }
    {
        match self.kind {
            SYMBOL => self.label / ARITY_STEP,
            ALTERNATION | CONCATENATION => 2,
            ITERATION => 1,
            _ => 0,
        }
    }

    // The places for children, used or not.
    pub fn places(self) -> [u32; 3]
        ensures { result ≡ places self }
    {
        [self.first, self.second, self.third]
    }
}

// Node i as the words have it; the empty node where they do not hold it whole.
pub fn node_at(words: &[u32], i: usize) -> Node
    ensures { result ≡ node_in words.now i }
{
    let (nodes, _) = words.as_chunks();
    layout::nth(nodes, i)
}

// The nodes, as words, where they are a sound table of so many with this answer. Words, count and answer are apart, as its callers get them.
fn sound_nodes(words: &[u32], count: usize, answer: usize) -> Option<&[[u32; NODE_WIDTH]]>
    ensures { MatchOption result (Sound words.now count answer → ⊥) (λ nodes. Sound words.now count answer × (nodes_of nodes.now ≡ table_of words.now count)) }
{
    let (nodes, _) = words.as_chunks();
    let nodes = nodes.get(..count)?;
    if count <= MOST_NODES && answer < count && nodes::all_sound(nodes) {
        Some(nodes)
    } else {
        None
    }
}

// Are the words a sound table of so many nodes, with this answer? Words, count and answer are apart, since the function is public and the doors pass them so.
pub fn is_sound(words: &[u32], count: usize, answer: usize) -> bool
    ensures { SoundAnswer words.now count answer result }
{
    sound_nodes(words, count, answer).is_some()
}

// The node of this kind, label and children, as the next node of the table. Its open set is derived from the children's. Refused, and nothing changed: 8 where the kind, the label or a child does not suit, then 6 where there is no room.
// The five numbers come one by one: the signature is public, and with a `Shape` the largest conversion took 2.1 times what the tuned program takes, and 1.3 times without.
pub fn make(
    words: &mut [u32],
    count: usize,
    kind: u32,
    label: u32,
    first: u32,
    second: u32,
    third: u32,
) -> Result<(), Refused>
    ensures { Makes words.old count (shape_of kind label first second third) words.new (refusal_of result) }
{
    let shape = Shape {
        kind,
        label,
        first,
        second,
        third,
    };
    if !nodes::shape_fits(count, shape) {
        return Err(Refused::Unsound);
    }
    if MOST_NODES <= count {
        return Err(Refused::Short);
    }
    let Some((earlier, rest)) = words.split_at_mut_checked(NODE_WIDTH * count) else {
        return Err(Refused::Short);
    };
    let Some(place) = rest.first_chunk_mut() else {
        return Err(Refused::Short);
    };
    let (earlier, _) = earlier.as_chunks();
    let opens = nodes::open_of(earlier, shape);
    *place = Node { shape, opens }.words();
    Ok(())
}

// The written-out sizes of the nodes, into the scratch words, and the answer's. Words, count and answer are apart, as in `is_sound`.
pub fn measure(
    words: &[u32],
    count: usize,
    answer: usize,
    scratch: &mut [u32],
) -> Result<u32, Refused>
    ensures { Measures words.now count answer scratch.old scratch.new (measured_of result) }
{
    let Some(nodes) = sound_nodes(words, count, answer) else {
        return Err(Refused::Unsound);
    };
    // The rest has a name, since a proof knows only of what is named that it stays as it was.
    let Some((sizes, _rest)) = scratch.split_at_mut_checked(count) else {
        return Err(Refused::Short);
    };
    sizes::fill(nodes, sizes);
    Ok(sizes[answer])
}
