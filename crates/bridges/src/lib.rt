// Doors in C's calling convention to the conversions and to the text that is printed, as `doors` has them to files, trees and tables.
#![tactic(auto)]

ghost use Rattle.elimination.specs.Answers.{PartlyAnswered, WhollyAnswered};
ghost use Rattle.front.specs.Answers.{Prints};

use automaton::Extent;
use elimination::{Partly, Wholly};

#[unsafe(no_mangle)]
pub extern "C" fn door_convert_partly(file: &[u8], k: u32, nodes: &mut [u32]) -> Partly
    ensures { PartlyAnswered file.now k nodes.old nodes.new result }
{
    elimination::convert_partly(file, k, nodes).into()
}

#[unsafe(no_mangle)]
pub extern "C" fn door_convert(file: &[u8], nodes: &mut [u32]) -> Wholly
    ensures { WhollyAnswered file.now nodes.old nodes.new result }
{
    elimination::convert(file, nodes).into()
}

#[unsafe(no_mangle)]
pub extern "C" fn door_printed(file: &[u8], nodes: &mut [u32], out: &mut [u8]) -> Extent
    ensures { Prints file.now nodes.old nodes.new out.old out.new result }
{
    front::printed(file, nodes, out).into()
}
