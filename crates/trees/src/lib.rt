// Running a tree through an automaton, and its productive states.
#![tactic(auto)]

ghost use Rattle.std.specs.Prelude.{◌≡◌};
ghost use Rattle.trees.specs.Promises.{RunPromise, ProductivePromise, run_of, states_of};

use crate::runner::Runner;
use automaton::{Refusal, Refused};
use sets::StateSet;

mod climb;
mod columns;
mod rounds;
mod runner;
mod stack;

// What a run reaches: the states, and whether a final one is among them. The yes is half of the answer and flags nothing.
#[derive(Clone, Copy)]
pub struct Reached {
    pub states: StateSet,
    pub yes: bool,
}

// The same as C has it: on a refusal the set is empty, and the yes is a no.
#[repr(C)]
#[derive(Clone, Copy)]
pub struct ReachedStates {
    pub refusal: Refusal,
    pub states: StateSet,
    pub yes: bool,
}

impl From<Result<Reached, Refused>> for ReachedStates {
    ghost from_gives = { λ r given. given ≡ run_of r };

    fn from(r: Result<Reached, Refused>) -> ReachedStates {
        let Reached { states, yes } = r.unwrap_or(Reached {
            states: StateSet::EMPTY,
            yes: false,
        });
        ReachedStates {
            refusal: r.into(),
            states,
            yes,
        }
    }
}

// The productive states as C has them: on a refusal the set is empty.
#[repr(C)]
#[derive(Clone, Copy)]
pub struct ProductiveStates {
    pub refusal: Refusal,
    pub states: StateSet,
}

impl From<Result<StateSet, Refused>> for ProductiveStates {
    ghost from_gives = { λ r given. given ≡ states_of r };

    fn from(r: Result<StateSet, Refused>) -> ProductiveStates {
        ProductiveStates {
            refusal: r.into(),
            states: r.unwrap_or(StateSet::EMPTY),
        }
    }
}

// The run of the tree that the words are, through the file's automaton.
pub fn run(file: &[u8], words: &[u16]) -> Result<Reached, Refused>
    ensures { RunPromise file.now words.now (run_of result) }
{
    climb::answer(&Runner::of(&automaton::read(file)?), words)
}

// The productive states of the file's automaton.
pub fn productive(file: &[u8]) -> Result<StateSet, Refused>
    ensures { ProductivePromise file.now (states_of result) }
{
    let value = automaton::read(file)?;
    Ok(StateSet(rounds::rounds(&Runner::of(&value))))
}
