// The rows of an automaton, column by column: made once for each call, so that all rows can be tested at once.
ghost use Rattle.std.specs.Prelude.{◌≡◌, ℕ, ◌<◌, get_or};
ghost use Rattle.sets.specs.Members.{state_width};
ghost use Rattle.automaton.specs.Held.{Valid, most_symbols, most_arity, most_rows};
ghost use Rattle.automaton.specs.Answers.{held_by};
ghost use Rattle.trees.specs.Columns.{need_at, differs, entered, Whole, Tabled, Scanned};

use automaton::{Automaton, ROW_PLACES, Row, SOURCE_PLACES, SYMBOL_PLACES};
use std::array;

// Row i has place i of each column. Past the rows a column is 0: a place without a row needs nothing and aims at no state.
// An array of rows in place of the columns was tried: a long tree then takes five times as long.
#[derive(Drop)]
pub struct Columns {
    symbols: [u16; ROW_PLACES],
    // The sets that the rows need at each child place, empty where the place is absent: a field each, as the definitions name them. Sets are plain
    // numbers here, since `scan` goes over their bits.
    firsts: [u16; ROW_PLACES],
    seconds: [u16; ROW_PLACES],
    thirds: [u16; ROW_PLACES],
    // The sets of their targets alone.
    targets: [u16; ROW_PLACES],
    // For each symbol the targets of its rows: the set that it reaches as a leaf.
    leaves: [u16; SYMBOL_PLACES],
}

// That its sources are states is a clause of these two and of `enter`: a type for it would be made of each row and taken apart at once. The
// other clauses here have each an index of another kind below its bound.
// The set that a row with these sources, of which so many count, needs at a child place: of its source there; empty where the place is absent.
fn needed(sources: [u8; SOURCE_PLACES], arity: u8, place: usize) -> u16
    requires place_lt_most_arity { place < most_arity }
    requires place_bound { place < arity → get_or sources place 0 < state_width }
    ensures { result ≡ need_at sources arity place }
{
    if place < usize::from(arity) {
        1 << sources[place]
    } else {
        0
    }
}

// What it needs at all of its child places.
fn needs(sources: [u8; SOURCE_PLACES], arity: u8) -> [u16; SOURCE_PLACES]
    requires { (place : ℕ) → place < arity → get_or sources place 0 < state_width }
    ensures { (place : ℕ) → place < most_arity → get_or result place 0 ≡ need_at sources arity place }
{
    array::from_fn(|place| needed(sources, arity, place))
}

// What tells a row's symbol from the one that is asked for, in bits. Where none is asked for, symbols do not count.
fn other(own: u16, symbol: Option<u16>) -> u16
    ensures { result ≡ differs own symbol }
{
    symbol.map_or(0, |asked| own ^ asked)
}

impl Columns {
    const EMPTY: Columns = Columns {
        symbols: [0; ROW_PLACES],
        firsts: [0; ROW_PLACES],
        seconds: [0; ROW_PLACES],
        thirds: [0; ROW_PLACES],
        targets: [0; ROW_PLACES],
        leaves: [0; SYMBOL_PLACES],
    };

    // One row more: its numbers in the columns, and its target joined to the set of its symbol.
    fn enter(&mut self, i: usize, row: Row, arity: u8)
        requires i_lt_most_rows { i < most_rows }
        requires symbol_lt_most_symbols { row.symbol < most_symbols }
        requires target_lt_state_width { row.target < state_width }
        requires by_index { (place : ℕ) → place < arity → get_or row.sources place 0 < state_width }
        ensures whole { Whole self.old }
        ensures made { self.new ≡ entered i row arity self.old }
    {
        let target: u16 = 1 << row.target;
        self.symbols[i] = u16::from(row.symbol);
        let [first, second, third] = needs(row.sources, arity);
        self.firsts[i] = first;
        self.seconds[i] = second;
        self.thirds[i] = third;
        self.targets[i] = target;
        self.leaves[usize::from(row.symbol)] |= target;
    }

    // The columns of an automaton's rows.
    pub fn of(a: &Automaton) -> Columns
        requires { Valid (held_by a.now) }
        ensures { Tabled (held_by a.now).rules result }
    {
        let mut columns = Columns::EMPTY;
        let rows = &a.rows[..usize::from(a.count)];
        for (i, row) in rows.iter().enumerate() {
            columns.enter(i, *row, a.arities[usize::from(row.symbol)]);
        }
        columns
    }

    // The set that a symbol reaches as a leaf.
    pub fn leaf(&self, symbol: usize) -> u16
        requires { symbol < most_symbols }
        ensures { result ≡ get_or self.now.leaves symbol 0 }
    {
        self.leaves[symbol]
    }

    // The targets of those rows that have the symbol, where one is asked for, and find what they need at their child places in these sets.
    // All numbers of a row are read before the test, so that the machine code has no branch and takes many rows at once.
    pub fn scan(&self, symbol: Option<u16>, sets: [u16; SOURCE_PLACES]) -> u16
        ensures { Scanned self.now symbol sets result }
    {
        let [a, b, c] = sets;
        let mut found: u16 = 0;
        for i in 0..ROW_PLACES {
            let own = self.symbols[i];
            let first = self.firsts[i];
            let second = self.seconds[i];
            let third = self.thirds[i];
            let target = self.targets[i];
            let missed = other(own, symbol)
                | ((first ^ (first & a)) | ((second ^ (second & b)) | (third ^ (third & c))));
            if missed == 0 {
                found |= target;
            }
        }
        found
    }
}
