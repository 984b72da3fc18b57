// Trees run, and the productive states. A draft and its symbols go side by side, as `trees::run` takes them.
use crate::drafts::Draft;
use crate::say::{Spaced, say};
use trees::{ProductiveStates, ReachedStates};

// The tree that these symbols are, or symbols that are none.
pub fn run(draft: &Draft, symbols: &[u16]) {
    say!("run ", draft.name, " on", Spaced(symbols));
    outcome(draft, symbols)
}

// A chain, of too many symbols to write out.
pub fn run_chain(draft: &Draft, symbols: &[u16]) {
    say!("run ", draft.name, " on a chain of ", symbols.len());
    outcome(draft, symbols)
}

fn outcome(draft: &Draft, symbols: &[u16]) {
    let reached = ReachedStates::from(trees::run(draft.file, symbols));
    say!(": ", reached.refusal, ", ", reached.states);
    say!(", ", reached.yes, "\n")
}

pub fn productive(draft: &Draft) {
    let productive = ProductiveStates::from(trees::productive(draft.file));
    say!("productive ", draft.name, ": ", productive.refusal);
    say!(", ", productive.states, "\n")
}
