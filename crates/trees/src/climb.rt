// A tree's words are read once, from the right end, with a pile of sets: each symbol takes the sets of its subtrees off the pile and puts its own on it.
ghost use Rattle.std.specs.Prelude.{◌≡◌, ◌<◌, ◌≤◌, length};
ghost use Rattle.trees.specs.Words.{most_words};
ghost use Rattle.trees.specs.Promises.{run_of};
ghost use Rattle.trees.specs.Piles.{pile_of, Puts, one_left, tree_answer, words_answer};

use crate::Reached;
use crate::runner::Runner;
use crate::stack::Stack;
use automaton::Refused;
use sets::StateSet;

// The places of the pile for a small tree.
const SMALL: usize = 64;

// The most symbols that a tree may have, and the places of the pile for any tree: it never holds more sets than the tree has symbols.
const MOST_WORDS: usize = 4096;

// One more word, on the left of those that were read: its set in place of its subtrees' on the pile. None where the symbol is unknown or finds too few subtrees.
fn put<const PLACES: usize>(runner: &Runner, word: u16, pile: &mut Stack<PLACES>) -> Option<()>
    requires room { length pile.old < PLACES }
    requires places_fit { PLACES ≤ most_words }
    ensures { Puts runner.now word pile.old pile.new result }
{
    let a = runner.automaton;
    if u16::from(a.symbols) <= word {
        return None;
    }
    let symbol = usize::from(word);
    let set = match usize::from(a.arities[symbol]) {
        0 => runner.columns.leaf(symbol),
        arity => runner.columns.scan(Some(word), pile.take(arity)?),
    };
    pile.push(set);
    Some(())
}

// The set that the tree reaches; none where the words are no tree. (The bound on the places is a clause, as in `stack`.)
fn climb<const PLACES: usize>(runner: &Runner, words: &[u16]) -> Option<u16>
    requires words_fit { length words.now ≤ PLACES }
    requires places_fit { PLACES ≤ most_words }
    ensures { result ≡ one_left (pile_of runner.now words.now) }
{
    let mut places = [0; PLACES];
    let mut pile = Stack::new(&mut places);
    for &word in words.iter().rev() {
        put(runner, word, &mut pile)?;
    }
    pile.only()
}

// The run of a tree that reaches this set. Where there is no set, there is no tree.
fn reached(finals: StateSet, set: Option<u16>) -> Result<Reached, Refused>
    ensures { run_of result ≡ tree_answer finals.0 set }
{
    let set = set.ok_or(Refused::NoTree)?;
    Ok(Reached {
        states: StateSet(set),
        yes: (set & finals.0) != 0,
    })
}

// The answer for any words. For a small tree the pile is small: the less there is, the less is cleared.
pub fn answer(runner: &Runner, words: &[u16]) -> Result<Reached, Refused>
    ensures { run_of result ≡ words_answer runner.now words.now }
{
    let finals = runner.automaton.finals;
    match words.len() {
        0..=SMALL => reached(finals, climb::<SMALL>(runner, words)),
        ..=MOST_WORDS => reached(finals, climb::<MOST_WORDS>(runner, words)),
        _ => Err(Refused::NoTree),
    }
}
