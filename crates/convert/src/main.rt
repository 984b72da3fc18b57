// The converter: an automaton file on standard input, and on standard output the listing of its expression, or "refused N".
#![tactic(auto)]

ghost use Rattle.convert.specs.Text.{Printable};

use front::{NODE_WORDS, TEXT_BYTES};

// The descriptors of standard input and standard output.
const STDIN_FILENO: i32 = 0;

const STDOUT_FILENO: i32 = 1;

// The text for a file, at the start of the bytes, and its length. With this room `printed` never refuses, so there is no other outcome.
fn text(file: &[u8], nodes: &mut [u32; NODE_WORDS], out: &mut [u8; TEXT_BYTES]) -> usize
    ensures { Printable file.now out.new result }
{
    front::printed(file, nodes, out).unwrap()
}

// What is read are the first 4,096 bytes, in as many pieces as they come. A longer input is judged by these, and what is printed is the same as for all of it (front, proofs/Cap.antt). Where a read fails, the input counts as ended.
fn main() {
    let mut bytes = io::buffer();
    let count = io::read_full(STDIN_FILENO, &mut bytes);
    let mut nodes = [0; NODE_WORDS];
    let mut out = [0; TEXT_BYTES];
    let length = text(&bytes[..count], &mut nodes, &mut out);
    io::write_all(STDOUT_FILENO, &out[..length]);
}
