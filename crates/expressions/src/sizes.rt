// Written-out sizes: of one node by those of its children, and of the nodes of a table in their order. A `u32` becomes a `usize` by `as`: there is no `From` from the one to the other.
ghost use Rattle.std.specs.Prelude.{◌≡◌, length, get_or};
ghost use Rattle.expressions.specs.Nodes.{child_count};
ghost use Rattle.expressions.specs.Soundness.{SoundNodes};
ghost use Rattle.expressions.specs.Sizes.{held, sizes_of};
ghost use Rattle.expressions.specs.Inside.{nodes_of, size_over};

use crate::{ALTERNATION, ARITY_STEP, CONCATENATION, ITERATION, NODE_WIDTH, Node, SYMBOL, Shape};

// 1 plus the sizes of the children, which are so many, held at the largest 32-bit number.
fn over_children(sizes: &[u32], shape: Shape, used: u32) -> u32
    requires { used ≡ child_count shape.kind shape.label }
    ensures { result ≡ held (size_over (λ c. get_or sizes.now c 0) shape) }
{
    let places = shape.places();
    let children = places.iter().take(used as usize);
    children.fold(1u32, |total, child| {
        total.saturating_add(sizes.get(*child as usize).copied().unwrap_or(0))
    })
}

// The size of a node by those of the nodes before it: a `match` on the kind's number, as the requirements ask of measuring (12.12). Each kind hands on its own number of children, for the same reason as in the soundness check.
#[tactic(auto, using(crate::proofs::Written::sizes_alone, crate::proofs::KindLaws::counts), unfolding(crate::specs::Nodes::child_count))]
fn size_at(sizes: &[u32], shape: Shape) -> u32
    ensures { result ≡ held (size_over (λ c. get_or sizes.now c 0) shape) }
{
    match shape.kind {
        SYMBOL => over_children(sizes, shape, shape.label / ARITY_STEP),
        ALTERNATION => over_children(sizes, shape, 2),
        CONCATENATION => over_children(sizes, shape, 2),
        ITERATION => over_children(sizes, shape, 1),
        _ => 1,
    }
}

// The held size of every node. By its index, since a size is stored among those that it is made of.
pub fn fill(nodes: &[[u32; NODE_WIDTH]], sizes: &mut [u32])
    requires sound { SoundNodes (nodes_of nodes.now) }
    requires as_many { length sizes.old ≡ length nodes.now }
    ensures { sizes.new ≡ sizes_of (nodes_of nodes.now) }
{
    for i in 0..sizes.len() {
        sizes[i] = size_at(sizes, Node::of_words(&nodes[i]).shape);
    }
}
