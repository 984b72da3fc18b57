// From a file's bytes to the bytes that the program prints: the listing of the converted automaton, or "refused N".
#![tactic(auto)]

ghost use Rattle.automaton.specs.Refusals.{extent_of};
ghost use Rattle.front.specs.Answers.{Prints};

use automaton::Refused;
use expressions::NODE_WIDTH;
use listing::{LONGEST_ANSWER, LONGEST_LINE};

mod text;

// No conversion makes more nodes.
const MOST_MADE: usize = 1393;

// Words and bytes enough for any file: with so many, `printed` never answers 6.
pub const NODE_WORDS: usize = NODE_WIDTH * MOST_MADE;

pub const TEXT_BYTES: usize = LONGEST_LINE * MOST_MADE + LONGEST_ANSWER;

// The text for a file, into the lent bytes, and its length. The nodes of its conversion go to the lent words.
pub fn printed(file: &[u8], nodes: &mut [u32], out: &mut [u8]) -> Result<usize, Refused>
    ensures { Prints file.now nodes.old nodes.new out.old out.new (extent_of result) }
{
    match elimination::convert(file, nodes) {
        Ok(made) => {
            let Ok(length) = listing::list(&nodes[..], made.nodes, made.answer, out) else {
                // The table of a conversion is sound, so the bytes are too few.
                buffers::zero(nodes);
                return Err(Refused::Short);
            };
            Ok(length)
        }
        // One in the other, since an arm for `Err(Refused::Short)` would not tell the next that the reason is another.
        Err(reason) => match reason {
            Refused::Short => Err(reason),
            _ => text::refuse(reason, nodes, out),
        },
    }
}
