// Taking states out of a row list, as definitions, and the theorem on it. There is nothing to run.
#![tactic(auto)]

// A row of the list: a node and a target.
#[repr(C)]
#[derive(Clone, Copy, PartialEq, Eq, Debug)]
pub struct NodeRow {
    pub node: u16,
    pub target: u8,
}
