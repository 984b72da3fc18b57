// The listing of a node table: a line for each node, and one that names the answer.
#![tactic(auto)]

ghost use Rattle.automaton.specs.Refusals.{extent_of};
ghost use Rattle.listing.specs.Answers.{Lists};

use automaton::Refused;

mod lines;

use lines::Table;

// The most bytes of a node's line, and of the last line.
pub const LONGEST_LINE: usize = 30;

pub const LONGEST_ANSWER: usize = 12;

// The listing of the table, into the bytes, and its length. Words, count and answer are apart, since the function is public and the doors pass them so.
pub fn list(words: &[u32], count: usize, answer: usize, out: &mut [u8]) -> Result<usize, Refused>
    ensures { Lists words.now count answer out.old out.new (extent_of result) }
{
    if !expressions::is_sound(words, count, answer) {
        return Err(Refused::Unsound);
    }
    let table = Table {
        words,
        count,
        answer,
    };
    if !table.fits_in(out.len()) {
        return Err(Refused::Short);
    }
    Ok(table.put(out))
}
