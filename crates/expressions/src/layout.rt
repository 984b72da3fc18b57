// The words of a node: the only code that knows which is which.
ghost use Rattle.std.specs.Prelude.{◌≡◌};
ghost use Rattle.expressions.specs.Nodes.{node_at};
ghost use Rattle.expressions.specs.Words.{encode, decode};
ghost use Rattle.expressions.specs.Inside.{nodes_of};

use crate::{NODE_WIDTH, Node, Shape};

impl Node {
    // The node of these words.
    #[tactic(auto, unfolding(crate::specs::Words::decode))]
    pub(crate) fn of_words(words: &[u32; NODE_WIDTH]) -> Node
        ensures { result ≡ decode words.now }
    {
        let [kind, label, first, second, third, opens] = *words;
        let shape = Shape {
            kind,
            label,
            first,
            second,
            third,
        };
        Node { shape, opens }
    }

    // The words of this node.
    #[tactic(auto, unfolding(crate::specs::Words::encode))]
    pub(crate) fn words(self) -> [u32; NODE_WIDTH]
        ensures { result ≡ encode self }
    {
        let Shape {
            kind,
            label,
            first,
            second,
            third,
        } = self.shape;
        [kind, label, first, second, third, self.opens]
    }
}

// Node i of a table's nodes, each as its words; the empty node where there are not so many.
pub fn nth(nodes: &[[u32; NODE_WIDTH]], i: usize) -> Node
    ensures { result ≡ node_at (nodes_of nodes.now) i }
{
    nodes.get(i).map_or(Node::EMPTY, Node::of_words)
}
