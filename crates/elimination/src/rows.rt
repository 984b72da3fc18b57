// The row list, and what its makers answer.
//
// Which row is which: a rule is a row of the file, and stands in an automaton's value as a `Row`. A row of the list is a node and a target, a
// `NodeRow`; the list has room for a fixed number of such rows. A `ListRow` is a row of the list as it is reported, with its waiting number.
ghost use Rattle.std.specs.Prelude.{◌≡◌, ◌%◌, ◌<◌, ◌≤◌, List, [], ◌∷◌, ◌++◌, length, take};
ghost use Rattle.theory.specs.declared.NodeRow.{NodeRow};
ghost use Rattle.theory.specs.RowLists.{list_places};

use crate::LIST_PLACES;
use std::marker::Model;
use theory::NodeRow;

// The target of a final state's row: the added state, after those that a file may have.
pub const FINAL_TARGET: u8 = automaton::MOST_STATES;

// The list. No heap is used, so its rows stand in a fixed number of places; what stands past them is of no account.
#[derive(Drop)]
pub struct Rows {
    count: usize,
    places: [NodeRow; LIST_PLACES],
}

// Clauses see the rows, in order.
impl Model for Rows {
    ghost Value = { List NodeRow };

    ghost view = { λ list. take list.count list.places };

    ghost invariant = { λ list. list.count ≤ list_places };
}

impl Rows {
    pub fn new() -> Rows
        ensures { result ≡ [] }
    {
        let unused = NodeRow { node: 0, target: 0 };
        Rows {
            count: 0,
            places: [unused; LIST_PLACES],
        }
    }

    pub fn push(&mut self, row: NodeRow)
        requires { length self.old < list_places }
        ensures { self.new ≡ self.old ++ row ∷ [] }
    {
        self.places[self.count] = row;
        self.count += 1;
    }

    pub fn rows(&self) -> &[NodeRow]
        ensures rows { result.now ≡ self.now }
        ensures few { length self.now ≤ list_places }
    {
        &self.places[..self.count]
    }
}

// What a maker of rows made: the number of nodes, and the list (`Got` has a node in its place: a type for both would name neither).
#[derive(Drop)]
pub struct Staged {
    pub count: u32,
    pub list: Rows,
}

// A row of the list. The nodes of a table have numbers that 16 bits hold; a number is cut to them, since here nothing says whose it is.
pub fn row(node: u32, target: u8) -> NodeRow
    ensures { result ≡ record { node = node % 65536; target = target } }
{
    NodeRow {
        node: (node % 65536) as u16,
        target,
    }
}
