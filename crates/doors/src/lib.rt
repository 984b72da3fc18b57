// Doors in C's calling convention to the public functions on files, trees and tables, for tests and benchmarks; `hatches` has those to sets and
// helpers, `bridges` those to conversions. Each calls the function behind it, makes what C gets of its result, and promises the same, by the name of the
// promise that the claims cite: so a function whose `ensures` said less than that promise would leave its door unproved.
#![tactic(auto)]

ghost use Rattle.std.specs.Prelude.{◌≡◌};
ghost use Rattle.automaton.specs.Answers.{read_answer};
ghost use Rattle.writer.specs.Answers.{Written};
ghost use Rattle.trees.specs.Promises.{RunPromise, ProductivePromise};
ghost use Rattle.expressions.specs.Nodes.{child_count};
ghost use Rattle.expressions.specs.Words.{node_in};
ghost use Rattle.expressions.specs.Making.{Makes};
ghost use Rattle.expressions.specs.Answers.{SoundAnswer, Measures};
ghost use Rattle.listing.specs.Answers.{Lists};

use automaton::{Automaton, Extent, Reading, Refusal};
use expressions::{Measured, Node, Shape};
use trees::{ProductiveStates, ReachedStates};

// ---- the automaton file

#[unsafe(no_mangle)]
pub extern "C" fn door_read(file: &[u8]) -> Reading
    ensures { result ≡ read_answer file.now }
{
    automaton::read(file).into()
}

#[unsafe(no_mangle)]
pub extern "C" fn door_write(value: Automaton, out: &mut [u8]) -> Extent
    ensures { Written value out.old out.new result }
{
    writer::write(value, out).into()
}

// ---- runs

#[unsafe(no_mangle)]
pub extern "C" fn door_run(file: &[u8], words: &[u16]) -> ReachedStates
    ensures { RunPromise file.now words.now result }
{
    trees::run(file, words).into()
}

#[unsafe(no_mangle)]
pub extern "C" fn door_productive(file: &[u8]) -> ProductiveStates
    ensures { ProductivePromise file.now result }
{
    trees::productive(file).into()
}

// ---- tables

#[unsafe(no_mangle)]
pub extern "C" fn door_child_count(shape: Shape) -> u32
    ensures { result ≡ child_count shape.kind shape.label }
{
    shape.child_count()
}

#[unsafe(no_mangle)]
pub extern "C" fn door_node_at(words: &[u32], i: usize) -> Node
    ensures { result ≡ node_in words.now i }
{
    expressions::node_at(words, i)
}

#[unsafe(no_mangle)]
pub extern "C" fn door_is_sound(words: &[u32], count: usize, answer: usize) -> bool
    ensures { SoundAnswer words.now count answer result }
{
    expressions::is_sound(words, count, answer)
}

#[unsafe(no_mangle)]
pub extern "C" fn door_make(words: &mut [u32], count: usize, shape: Shape) -> Refusal
    ensures { Makes words.old count shape words.new result }
{
    expressions::make(
        words,
        count,
        shape.kind,
        shape.label,
        shape.first,
        shape.second,
        shape.third,
    )
    .into()
}

#[unsafe(no_mangle)]
pub extern "C" fn door_measure(
    words: &[u32],
    count: usize,
    answer: usize,
    scratch: &mut [u32],
) -> Measured
    ensures { Measures words.now count answer scratch.old scratch.new result }
{
    expressions::measure(words, count, answer, scratch).into()
}

#[unsafe(no_mangle)]
pub extern "C" fn door_list(words: &[u32], count: usize, answer: usize, out: &mut [u8]) -> Extent
    ensures { Lists words.now count answer out.old out.new result }
{
    listing::list(words, count, answer, out).into()
}
