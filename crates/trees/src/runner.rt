// A valid automaton, ready to run trees through it.
ghost use Rattle.std.specs.Prelude.{◌≡◌};
ghost use Rattle.automaton.specs.Held.{Held, Valid};
ghost use Rattle.automaton.specs.Answers.{held_by};
ghost use Rattle.trees.specs.Columns.{Ready};

use crate::columns::Columns;
use automaton::Automaton;
use std::marker::Model;

// The automaton, and its rows as columns.
#[derive(Drop)]
pub struct Runner<'a> {
    pub automaton: &'a Automaton,
    pub columns: Columns,
}

// Clauses see what the automaton holds.
impl<'a> Model for Runner<'a> {
    ghost Value = { Held };

    ghost view = { λ r. held_by r.automaton.now };

    ghost invariant = { λ r. Ready (held_by r.automaton.now) r.columns };
}

impl<'a> Runner<'a> {
    pub fn of(automaton: &'a Automaton) -> Self
        requires { Valid (held_by automaton.now) }
        ensures { result ≡ held_by automaton.now }
    {
        let columns = Columns::of(automaton);
        Runner { automaton, columns }
    }
}
