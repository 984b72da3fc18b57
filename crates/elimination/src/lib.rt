// The conversion: the states of a file's automaton taken out one after the other, and the expression that is left.
#![tactic(auto)]

ghost use Rattle.std.specs.Prelude.{◌≡◌};
ghost use Rattle.automaton.specs.Answers.{held_by};
ghost use Rattle.elimination.specs.Answers.{PartlyAnswered, WhollyAnswered, partly_answer, wholly_answer};
ghost use Rattle.elimination.specs.Inside.{PartlyOf, WhollyOf};

use crate::given::Given;
use crate::maker::Got;
use crate::rows::Staged;
use automaton::{Refusal, Refused};

mod course;
mod given;
mod maker;
mod report;
mod rows;
mod start;
mod state;
mod step;

// The places of the row list: one for each row that a file may have, and one for each state; by `as`, since no function of a trait is called in a constant.
pub const LIST_PLACES: usize = automaton::ROW_PLACES + automaton::MOST_STATES as usize;

// A row of a partial conversion's list: its node, its target, and how many different states it still waits for.
#[repr(C)]
#[derive(Clone, Copy, PartialEq, Eq, Debug)]
pub struct ListRow {
    pub node: u16,
    pub target: u8,
    pub waits: u8,
}

// A conversion stopped after some states: the number of nodes, the number of rows, and the list; places past the rows are 0. The array is the one of 80
// places that C gets (8.22), and no heap is used.
#[derive(Clone, Copy, PartialEq, Eq, Debug)]
pub struct Stopped {
    pub nodes: usize,
    pub rows: usize,
    pub list: [ListRow; LIST_PLACES],
}

// The same as C has it: on a refusal every other number is 0.
#[repr(C)]
#[derive(Clone, Copy)]
pub struct Partly {
    pub refusal: Refusal,
    pub nodes: usize,
    pub rows: usize,
    pub list: [ListRow; LIST_PLACES],
}

impl From<Result<Stopped, Refused>> for Partly {
    ghost from_gives = { λ r given. given ≡ partly_answer r };

    fn from(r: Result<Stopped, Refused>) -> Partly {
        let refusal = r.into();
        let Stopped { nodes, rows, list } = r.unwrap_or(report::NOTHING);
        Partly {
            refusal,
            nodes,
            rows,
            list,
        }
    }
}

// A full conversion: the number of nodes, and the answer's node.
#[derive(Clone, Copy, PartialEq, Eq, Debug)]
pub struct Converted {
    pub nodes: usize,
    pub answer: usize,
}

// The same as C has it: on a refusal every other number is 0.
#[repr(C)]
#[derive(Clone, Copy)]
pub struct Wholly {
    pub refusal: Refusal,
    pub nodes: usize,
    pub answer: usize,
}

impl From<Result<Converted, Refused>> for Wholly {
    ghost from_gives = { λ r given. given ≡ wholly_answer r };

    fn from(r: Result<Converted, Refused>) -> Wholly {
        let refusal = r.into();
        let Converted { nodes, answer } = r.unwrap_or(Converted {
            nodes: 0,
            answer: 0,
        });
        Wholly {
            refusal,
            nodes,
            answer,
        }
    }
}

// The automaton after its first k states are taken out. Numbers of nodes are words inside and indices outside, by `as`, since there is no `From`.
fn partly_of(nodes: &mut [u32], given: &Given, k: u32) -> Result<Stopped, Refused>
    ensures { PartlyOf (held_by given.now.value) k nodes.old nodes.new (partly_answer result) }
{
    if given.states() < k {
        return Err(Refused::TooFar);
    }
    match course::partly(nodes, given, k) {
        Ok(Staged { count, list }) => {
            let rows = list.rows();
            Ok(Stopped {
                nodes: count as usize,
                rows: rows.len(),
                list: report::list_rows(nodes, rows),
            })
        }
        Err(reason) => {
            buffers::zero(nodes);
            Err(reason)
        }
    }
}

// The automaton of a file after the first k states are taken out: the nodes go to the lent words.
pub fn convert_partly(file: &[u8], k: u32, nodes: &mut [u32]) -> Result<Stopped, Refused>
    ensures { PartlyAnswered file.now k nodes.old nodes.new (partly_answer result) }
{
    partly_of(nodes, &Given::read(file)?, k)
}

// The expression of the automaton.
fn wholly_of(nodes: &mut [u32], given: &Given) -> Result<Converted, Refused>
    ensures { WhollyOf (held_by given.now.value) nodes.old nodes.new (wholly_answer result) }
{
    match course::wholly(nodes, given) {
        Ok(Got { count, node }) => Ok(Converted {
            nodes: count as usize,
            answer: node as usize,
        }),
        Err(short) => {
            buffers::zero(nodes);
            Err(short)
        }
    }
}

// The expression of a file's automaton: the nodes go to the lent words.
pub fn convert(file: &[u8], nodes: &mut [u32]) -> Result<Converted, Refused>
    ensures { WhollyAnswered file.now nodes.old nodes.new (wholly_answer result) }
{
    wholly_of(nodes, &Given::read(file)?)
}
