// A pile of sets in fixed memory: its top stands highest. The row list of `elimination` owns its places and goes the other way: one type for both would
// have both views. The places are lent: a pile that owns them was tried, and a run took 1.14 times as long.
ghost use Rattle.std.specs.Prelude.{◌≡◌, ◌<◌, ◌≤◌, List, [], ◌∷◌, ℕ, length};
ghost use Rattle.automaton.specs.Held.{most_arity};
ghost use Rattle.trees.specs.Words.{most_words};
ghost use Rattle.trees.specs.Stacks.{Holds, down, alone, TakesOff};

use automaton::SOURCE_PLACES;
use std::marker::Model;

#[derive(Drop)]
pub struct Stack<'a, const PLACES: usize> {
    places: &'a mut [u16; PLACES],
    depth: usize,
}

// Clauses see the sets, from the top down.
impl<'a, const PLACES: usize> Model for Stack<'a, PLACES> {
    ghost Value = { List ℕ };

    ghost view = { λ s. down s.places.now s.depth };

    ghost invariant = { λ s. Holds PLACES s.places.now s.depth };
}

impl<'a, const PLACES: usize> Stack<'a, PLACES> {
    // That there are no more places than words of a tree is a clause here and in `climb`: no type carries a bound on a const parameter.
    pub fn new(places: &'a mut [u16; PLACES]) -> Self
        requires { PLACES ≤ most_words }
        ensures { result ≡ [] }
    {
        Stack { places, depth: 0 }
    }

    // Takes so many sets off, the first from the top; none where there are too few. Of the three numbers those past the first so many mean nothing.
    pub fn take(&mut self, count: usize) -> Option<[u16; SOURCE_PLACES]>
        requires some { 1 ≤ count }
        requires few { count ≤ most_arity }
        ensures { TakesOff count self.old self.new result }
    {
        let base = self.depth.checked_sub(count)?;
        self.depth = base;
        // Of three sets the second lies at 1, of fewer at 0.
        let last = count - 1;
        let first = self.places[base + last];
        let second = self.places[base + last / 2];
        let third = self.places[base];
        Some([first, second, third])
    }

    // Puts a set on top.
    pub fn push(&mut self, set: u16)
        requires { length self.old < PLACES }
        ensures { self.new ≡ set ∷ self.old }
    {
        self.places[self.depth] = set;
        self.depth += 1;
    }

    // The set that stands alone; none where there are none or more.
    #[tactic(auto, using(crate::proofs::Stacking::one_alone, crate::proofs::Stacking::others_none))]
    pub fn only(self) -> Option<u16>
        ensures { result ≡ alone self.entry }
    {
        if self.depth == 1 {
            Some(self.places[0])
        } else {
            None
        }
    }
}
