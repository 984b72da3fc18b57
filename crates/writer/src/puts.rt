// The bytes of a value's file, record by record, each at the front of what is left; each answers how many bytes it put. The bytes
// and the arities go side by side: they are no one thing.
ghost use Rattle.std.specs.Prelude.{[], ◌∷◌, map, ◌+◌, ◌≤◌, ◌<◌, length};
ghost use Rattle.automaton.specs.Held.{Valid};
ghost use Rattle.automaton.specs.File.{file_record, symbol_record, row_record, each, file_of};
ghost use Rattle.automaton.specs.Answers.{rule_held, held_by};
ghost use Rattle.writer.specs.Inside.{Put, RowThere, RowsThere};

use automaton::{Automaton, Row};

// The kinds of records, by their numbers in the file. The reader's enum of them is no plainer here: each would be cast where it is put.
const HEAD: u8 = 1;

const SYMBOL: u8 = 2;

const ROW: u8 = 3;

const END: u8 = 9;

// A record: its length, which one byte holds, so that `as` cuts nothing off; its kind; its payload.
fn put_record(out: &mut [u8], kind: u8, payload: &[u8]) -> usize
    requires short { length payload.now < 256 }
    requires room { 4 + length payload.now ≤ length out.old }
    ensures { Put (file_record kind payload.now) out.old out.new result }
{
    let end = 4 + payload.len();
    out[..4].copy_from_slice(&[payload.len() as u8, 0, kind, 0]);
    out[4..end].copy_from_slice(payload);
    end
}

// The records of the symbols. That of the rows is no other loop, but what it goes over and what it puts of each differ: one code for both would take
// a closure that takes its part of the bytes, and be no plainer.
fn put_symbols(out: &mut [u8], arities: &[u8]) -> usize
    requires { length (each symbol_record arities.now) ≤ length out.old }
    ensures { Put (each symbol_record arities.now) out.old out.new result }
{
    let mut at = 0;
    for &arity in arities {
        at += put_record(&mut out[at..], SYMBOL, &[arity]);
    }
    at
}

fn put_row(out: &mut [u8], row: &Row, arities: &[u8]) -> usize
    requires { RowThere out.old arities.now row.now }
    ensures { Put (row_record (rule_held arities.now row.now)) out.old out.new result }
{
    let [first, second, third] = row.sources;
    let payload = [row.symbol, row.target, first, second, third];
    let arity = usize::from(arities[usize::from(row.symbol)]);
    put_record(out, ROW, &payload[..2 + arity])
}

fn put_rows(out: &mut [u8], rows: &[Row], arities: &[u8]) -> usize
    requires { RowsThere out.old arities.now rows.now }
    ensures { Put (each row_record (map (rule_held arities.now) rows.now)) out.old out.new result }
{
    let mut at = 0;
    for row in rows {
        at += put_row(&mut out[at..], row, arities);
    }
    at
}

// The bytes of the value's file.
pub fn put_file(value: &Automaton, out: &mut [u8])
    requires valid { Valid (held_by value.now) }
    requires room { length (file_of (held_by value.now)) ≤ length out.old }
    ensures { Put (file_of (held_by value.now)) out.old out.new (length (file_of (held_by value.now))) }
{
    let arities = &value.arities[..usize::from(value.symbols)];
    let rows = &value.rows[..usize::from(value.count)];
    let [low, high] = value.finals.0.to_le_bytes();
    let mut at = put_record(out, HEAD, &[value.states, low, high]);
    at += put_symbols(&mut out[at..], arities);
    at += put_rows(&mut out[at..], rows, arities);
    put_record(&mut out[at..], END, &[]);
}
