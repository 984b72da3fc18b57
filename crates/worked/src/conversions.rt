// Drafts converted: wholly, partly, and to the text that is printed. A draft and what is lent for it go side by side, as the public functions take them.
use crate::drafts::Draft;
use crate::say::{Left, Say, Shown, say};
use crate::tables;
use automaton::Extent;
use elimination::{ListRow, Partly, Wholly};

pub fn convert(draft: &Draft, words: &mut [u32]) -> Wholly {
    elimination::convert(draft.file, words).into()
}

// A conversion into the words, and the written-out size of its answer.
pub fn wholly(draft: &Draft, words: &mut [u32]) {
    say!("convert ", draft.name, " in ", words.len(), " words: ");
    let made = convert(draft, words);
    let measured = tables::measured(words, made.nodes, made.answer, &mut [0; 16]);
    say!(made.refusal, ", ", made.nodes, " nodes, answer ");
    say!(made.answer, ", size ", measured.size, Left(words), "\n")
}

impl Say for ListRow {
    fn say(&self) {
        say!(", ", self.node, " to ", self.target, " waits ", self.waits)
    }
}

// A conversion of the first so many states into the words.
pub fn partly(draft: &Draft, states: u32, words: &mut [u32]) {
    say!("convert ", draft.name, " by ", states, " states in ");
    say!(words.len(), " words: ");
    let made = Partly::from(elimination::convert_partly(draft.file, states, words));
    say!(
        made.refusal,
        ", ",
        made.nodes,
        " nodes, ",
        made.rows,
        " rows"
    );
    for row in made.list.iter().take(made.rows) {
        say!(*row)
    }
    say!(Left(words), "\n")
}

// What the program `convert` prints for the file, in these words and bytes.
pub fn printed(draft: &Draft, words: &mut [u32], out: &mut [u8]) {
    let printing = Extent::from(front::printed(draft.file, words, out));
    say!("printed ", draft.name, ": ", printing.refusal, ", length ");
    say!(printing.length, ", text ", Shown(out), Left(words), "\n")
}
