// Node tables made, checked, measured and listed. Words, count and answer go side by side, as the public functions take them; a kind is said by the
// name of its function, which is plainer than one function of kinds.
ghost use Rattle.std.specs.Prelude.{◌<◌};

use crate::conversions;
use crate::drafts::P;
use crate::say::{Shown, Spaced, say};
use automaton::{Extent, Refusal};
use expressions::{ARITY_STEP, HOLE, ITERATION, Measured, SYMBOL, Shape};

pub const EMPTY: Shape = Shape {
    kind: expressions::EMPTY,
    label: 0,
    first: 0,
    second: 0,
    third: 0,
};

pub fn hole(state: u32) -> Shape {
    Shape {
        kind: HOLE,
        label: state,
        ..EMPTY
    }
}

// A symbol that takes no children.
pub fn leaf(symbol: u32) -> Shape {
    Shape {
        kind: SYMBOL,
        label: symbol,
        ..EMPTY
    }
}

// A symbol over one node twice.
fn pair(symbol: u8, child: u32) -> Shape {
    Shape {
        label: u32::from(symbol) + 2 * ARITY_STEP,
        first: child,
        second: child,
        ..leaf(0)
    }
}

pub fn iteration(state: u32, child: u32) -> Shape {
    Shape {
        kind: ITERATION,
        label: state,
        first: child,
        ..EMPTY
    }
}

// The node of this shape, put after so many.
fn put(words: &mut [u32], count: usize, shape: Shape) -> Refusal {
    let Shape {
        kind,
        label,
        first,
        second,
        third,
    } = shape;
    expressions::make(words, count, kind, label, first, second, third).into()
}

// One node put at this number into the words.
pub fn make(name: &str, words: &mut [u32], count: usize, shape: Shape) {
    let refusal = put(words, count, shape);
    say!("make ", name, " at ", count, ": ", refusal);
    say!(", words", Spaced(words), "\n")
}

// P's table, in just enough words.
pub fn of_p() -> [u32; 60] {
    let mut words = [0; 60];
    conversions::convert(&P, &mut words);
    words
}

// P's table with this word at this place.
pub fn changed(place: usize, word: u32) -> [u32; 60]
    requires { place < 60 }
{
    let mut words = of_p();
    words[place] = word;
    words
}

// Are the words a sound table?
pub fn check(name: &str, words: &[u32], count: usize, answer: usize) {
    let yes = expressions::is_sound(words, count, answer);
    say!("sound ", name, ", count ", count, ", answer ", answer);
    say!(": ", yes, "\n")
}

pub fn measured(words: &[u32], count: usize, answer: usize, scratch: &mut [u32]) -> Measured {
    expressions::measure(words, count, answer, scratch).into()
}

// P's table measured with these words lent.
pub fn measure(count: usize, answer: usize, scratch: &mut [u32]) {
    let measured = measured(&of_p(), count, answer, scratch);
    say!("measure P, count ", count, ", answer ", answer, ": ");
    say!(measured.refusal, ", size ", measured.size);
    say!(", scratch", Spaced(scratch), "\n")
}

// The size of the last node, where each from 1 on is a symbol over the node before, twice: sizes 1, 3, 7 and so on. By `as`, since there is no `From` from `u32` to `usize`.
pub fn measure_doubled(last: u32) {
    let mut words = [0; 198];
    put(&mut words, 0, leaf(0));
    for before in 0..last {
        put(&mut words, before as usize + 1, pair(1, before));
    }
    let answer = last as usize;
    let nodes = answer + 1;
    let measured = measured(&words, nodes, answer, &mut [0; 33]);
    say!("measure ", nodes, " nodes, each twice in the next: ");
    say!(measured.refusal, ", size ", measured.size, "\n")
}

// P's table listed in these bytes.
pub fn list(count: usize, answer: usize, out: &mut [u8]) {
    let listed = Extent::from(listing::list(&of_p(), count, answer, out));
    say!("list P, count ", count, ", answer ", answer, ": ");
    say!(listed.refusal, ", length ", listed.length);
    say!(", text ", Shown(out), "\n")
}
