// (Words and what else go side by side, as in `maker`.)
// The start of a conversion: the empty node, the holes, the nodes of the file's rows, and the list.
ghost use Rattle.std.specs.Prelude.{◌≡◌, ℕ, ◌++◌, map, suc, ◌+◌, ◌<◌, ◌≤◌, length, get_or};
ghost use Rattle.sets.specs.Members.{has, state_width};
ghost use Rattle.automaton.specs.Answers.{held_by};
ghost use Rattle.automaton.specs.Held.{most_symbols, most_arity};
ghost use Rattle.ground.specs.Lists.{those};
ghost use Rattle.theory.specs.RowLists.{ascending, list_places};
ghost use Rattle.theory.specs.Stages.{holes_table, final_node_row, start};
ghost use Rattle.elimination.specs.Inside.{GivesTable, GivesStage, StageOn, child_of, row_shape, rules_stage};

use crate::given::Given;
use crate::rows::{Rows, Staged};
use crate::{maker, rows};
use automaton::{Refused, Row, SOURCE_PLACES, SYMBOL_PLACES};
use expressions::{ARITY_STEP, EMPTY, HOLE, SYMBOL, Shape};
use ground::Wide;
use sets::StateSet;
use std::array;

// The empty node and the holes of n states, and how many nodes they are. That n is at most the width is a clause here, of `put_finals` and of the
// course: it is a number of states and none of them, and a type for it would be made once.
fn put_holes(words: &mut [u32], n: u32) -> Result<u32, Refused>
    requires { n ≤ state_width }
    ensures { GivesTable words.old (holes_table n) words.new result }
{
    let mut count = maker::new_node(words, 0, EMPTY, 0, 0, 0, 0)?.count;
    for q in 0..n {
        count = maker::new_node(words, count, HOLE, q, 0, 0, 0)?.count;
    }
    Ok(count)
}

// The child at a place of a rule's node: the source's hole, where there is one.
fn child(place: usize, arity: u8, source: u8) -> u32
    ensures { result ≡ child_of place arity source }
{
    if place < usize::from(arity) {
        source.wide() + 1
    } else {
        0
    }
}

// The children at all of its places.
fn children(sources: [u8; SOURCE_PLACES], arity: u8) -> [u32; SOURCE_PLACES]
    ensures { (place : ℕ) → place < most_arity → get_or result place 0 ≡ child_of place arity (get_or sources place 0) }
{
    array::from_fn(|place| child(place, arity, sources[place]))
}

// The shape of a rule's node, by the arities of the symbols.
fn rule_shape(rule: Row, arities: &[u8; SYMBOL_PLACES]) -> Shape
    requires symbol_lt_most_symbols { rule.symbol < most_symbols }
    requires symbol_bound { get_or arities.now rule.symbol 0 ≤ most_arity }
    ensures { result ≡ row_shape rule (get_or arities.now rule.symbol 0) }
{
    let arity = arities[usize::from(rule.symbol)];
    let [first, second, third] = children(rule.sources, arity);
    Shape {
        kind: SYMBOL,
        label: rule.symbol.wide() + ARITY_STEP * arity.wide(),
        first,
        second,
        third,
    }
}

// The nodes of the rules, and their rows in the list.
fn put_rules(words: &mut [u32], begun: u32, given: &Given) -> Result<Staged, Refused>
    ensures { StageOn (λ table. (held_by given.now.value).states < length table) (rules_stage (held_by given.now.value).rules) words.old begun words.new result }
{
    let mut count = begun;
    let mut list = Rows::new();
    for &rule in given.rules() {
        let Shape {
            kind,
            label,
            first,
            second,
            third,
        } = rule_shape(rule, &given.value.arities);
        let got = maker::new_node(words, count, kind, label, first, second, third)?;
        count = got.count;
        list.push(rows::row(got.node, rule.target));
    }
    Ok(Staged { count, list })
}

// The rows of the final states, the lowest first, after other rows.
fn put_finals(list: &mut Rows, n: u32, finals: StateSet)
    requires n_le_state_width { n ≤ state_width }
    requires state_width_len_bound { length list.old + state_width ≤ list_places }
    ensures { list.new ≡ list.old ++ map final_node_row (those (has finals.0) (ascending n)) }
{
    for q in 0..n {
        if finals.has(q) {
            list.push(rows::row(q + 1, rows::FINAL_TARGET));
        }
    }
}

// The table and the list of the start.
pub fn begin(words: &mut [u32], given: &Given) -> Result<Staged, Refused>
    ensures { GivesStage words.old (start (held_by given.now.value)) words.new result }
{
    let n = given.states();
    let holes = put_holes(words, n)?;
    let mut staged = put_rules(words, holes, given)?;
    put_finals(&mut staged.list, n, given.value.finals);
    Ok(staged)
}
