// Files read to values, and values written to files.
use crate::drafts::Draft;
use crate::say::{Spaced, say};
use automaton::{Automaton, Extent, Reading, Row};

fn reading(draft: &Draft) -> Reading {
    automaton::read(draft.file).into()
}

fn arities(value: &Automaton) {
    for arity in value.arities.iter().take(usize::from(value.symbols)) {
        say!(" ", *arity)
    }
}

// A row, with as many sources as its symbol's arity.
fn row(row: &Row, arity: u8) {
    say!(", ", row.symbol, "(");
    for (i, source) in row.sources.iter().take(usize::from(arity)).enumerate() {
        if i > 0 {
            say!(" ")
        }
        say!(*source)
    }
    say!(") to ", row.target)
}

// Each row of a file that was read is of a symbol with an arity.
fn rows(value: &Automaton) {
    for rule in value.rows.iter().take(usize::from(value.count)) {
        let arity = value.arities.get(usize::from(rule.symbol));
        row(rule, arity.copied().unwrap_or(0))
    }
}

pub fn read(draft: &Draft) {
    let reading = reading(draft);
    let value = reading.automaton;
    say!("read ", draft.name, ": ", reading.refusal);
    say!(", ", value.states, " states, final ", value.finals);
    say!(", ", value.symbols, " symbols, arities");
    arities(&value);
    say!(", ", value.count, " rows");
    rows(&value);
    say!("\n")
}

// What a file reads to, with this number of states, written to the bytes.
pub fn write(draft: &Draft, states: u8, out: &mut [u8]) {
    let value = Automaton {
        states,
        ..reading(draft).automaton
    };
    let writing = Extent::from(writer::write(value, out));
    say!("write ", draft.name, " with ", states, " states to ");
    say!(out.len(), " bytes: ", writing.refusal);
    say!(", length ", writing.length, ", bytes", Spaced(out), "\n")
}
