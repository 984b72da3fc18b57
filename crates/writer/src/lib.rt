// The writer of the automaton file: the bytes of any value that a file can hold.
#![tactic(auto)]

mod fits;
mod puts;

ghost use Rattle.automaton.specs.Refusals.{extent_of};
ghost use Rattle.writer.specs.Answers.{Written};

use automaton::{Automaton, Refused};

// The file of any value, into the lent bytes, and its length. Refused as beyond a limit where there is no such file, then as short where the bytes are too few.
pub fn write(value: Automaton, out: &mut [u8]) -> Result<usize, Refused>
    ensures { Written value out.old out.new (extent_of result) }
{
    let length = fits::file_size(&value).ok_or(Refused::Limit)?;
    if out.len() < length {
        return Err(Refused::Short);
    }
    puts::put_file(&value, out);
    Ok(length)
}
