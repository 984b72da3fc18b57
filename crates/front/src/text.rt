// The line "refused N".
ghost use Rattle.std.specs.Prelude.{◌≡◌, ◌++◌, ◌≤◌, length, drop};
ghost use Rattle.automaton.specs.Refusals.{number_of, extent_of};
ghost use Rattle.front.specs.Text.{refused_line};
ghost use Rattle.front.specs.Inside.{Refuses};

use automaton::Refused;

// The bytes of the line "refused N", with its newline.
const LINE: usize = 10;

// The line "refused N", from the first byte on. An enum gives its number by `as` alone.
fn put_refused(out: &mut [u8], reason: Refused)
    requires { 10 ≤ length out.old }
    ensures { out.new ≡ refused_line (number_of reason) ++ drop 10 out.old }
{
    let mut line = *b"refused 0\n";
    line[8] += reason as u8;
    out[..LINE].copy_from_slice(&line);
}

// The text for a file that is refused for this reason, and its length; where it does not fit the bytes, the words are all 0.
pub fn refuse(reason: Refused, nodes: &mut [u32], out: &mut [u8]) -> Result<usize, Refused>
    ensures { Refuses (number_of reason) nodes.old nodes.new out.old out.new (extent_of result) }
{
    if out.len() < LINE {
        buffers::zero(nodes);
        return Err(Refused::Short);
    }
    put_refused(out, reason);
    Ok(LINE)
}
