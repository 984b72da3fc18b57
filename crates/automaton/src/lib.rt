// The automaton: its value, and the reader of its file.
#![tactic(auto)]

mod reader;

ghost use Rattle.std.specs.Prelude.{◌≡◌, replicate};
ghost use Rattle.automaton.specs.Refusals.{refusal_of, extent_of};
ghost use Rattle.automaton.specs.Held.{most_rows};
ghost use Rattle.automaton.specs.Answers.{read_answer, read_of, unused_row};

use reader::{Kind, Record};
use sets::StateSet;

// The limits of an automaton, as numbers to compare with and as numbers of places: by `as`, since no function of a trait is called in a constant.
pub const MOST_STATES: u8 = sets::MOST_STATES;

pub const MOST_SYMBOLS: u8 = 32;

pub const MOST_ARITY: u8 = 3;

pub const MOST_ROWS: u8 = 64;

pub const SYMBOL_PLACES: usize = MOST_SYMBOLS as usize;

pub const SOURCE_PLACES: usize = MOST_ARITY as usize;

pub const ROW_PLACES: usize = MOST_ROWS as usize;

// Why a call is refused: the reasons of all rooms, with their numbers.
#[derive(Clone, Copy, Debug, PartialEq, Eq)]
pub enum Refused {
    // A file breaks off.
    BreaksOff = 1,
    // A record's kind does not exist, or may not stand there.
    Kind = 2,
    // A record's length is not right.
    Length = 3,
    // A number goes beyond its limit, or a value that no file can hold.
    Limit = 4,
    // Something follows the end record.
    PastEnd = 5,
    // What was lent to be filled is too small.
    Short = 6,
    // The words are not one tree.
    NoTree = 7,
    // The words are not a sound table, or a node fits none.
    Unsound = 8,
    // More steps are asked than there are states.
    TooFar = 9,
}

// A refusal as C has it: its number, or 0 for done.
#[repr(C)]
#[derive(Clone, Copy)]
pub struct Refusal {
    pub number: u8,
}

impl<T: Drop> From<Result<T, Refused>> for Refusal {
    ghost from_gives = { λ r refusal. refusal ≡ refusal_of r };

    fn from(r: Result<T, Refused>) -> Refusal {
        match r {
            Ok(_) => Refusal { number: 0 },
            // An enum gives its number by `as` alone.
            Err(reason) => Refusal {
                number: reason as u8,
            },
        }
    }
}

// How many bytes of what was lent are filled, as C has it: 0 on a refusal.
#[repr(C)]
#[derive(Clone, Copy)]
pub struct Extent {
    pub refusal: Refusal,
    pub length: usize,
}

impl From<Result<usize, Refused>> for Extent {
    ghost from_gives = { λ r extent. extent ≡ extent_of r };

    fn from(r: Result<usize, Refused>) -> Extent {
        Extent {
            refusal: r.into(),
            length: r.unwrap_or(0),
        }
    }
}

// A row as it crosses to C: symbol, target state, and the source states from the left; places past the symbol's arity are not used.
#[repr(C)]
#[derive(Clone, Copy)]
pub struct Row {
    pub symbol: u8,
    pub target: u8,
    pub sources: [u8; SOURCE_PLACES],
}

// The automaton, as it crosses to C: arrays with their counts beside them. Places of `arities` past `symbols`, and places of `rows` past `count`, are not used.
#[repr(C)]
#[derive(Clone, Copy)]
pub struct Automaton {
    pub states: u8,
    pub finals: StateSet,
    pub symbols: u8,
    pub arities: [u8; SYMBOL_PLACES],
    pub count: u8,
    pub rows: [Row; ROW_PLACES],
}

// A reading as C has it: on a refusal every number of the automaton is 0.
#[repr(C)]
#[derive(Clone, Copy)]
pub struct Reading {
    pub refusal: Refusal,
    pub automaton: Automaton,
}

impl From<Result<Automaton, Refused>> for Reading {
    ghost from_gives = { λ r reading. reading ≡ read_of r };

    fn from(r: Result<Automaton, Refused>) -> Reading {
        Reading {
            refusal: r.into(),
            automaton: r.unwrap_or(NOTHING),
        }
    }
}

const UNUSED: Row = Row {
    symbol: 0,
    target: 0,
    sources: [0; SOURCE_PLACES],
};

// Every number 0, and every place unused.
const NOTHING: Automaton = Automaton {
    states: 0,
    finals: StateSet::EMPTY,
    symbols: 0,
    arities: [0; SYMBOL_PLACES],
    count: 0,
    rows: [UNUSED; ROW_PLACES],
};

// A row in no place. A function of its own, since the places are cleared at once so: in an array that is written inside of another value, each row
// is stored by itself, which made the reading of a small file take 1.6 times as long.
fn no_rows() -> [Row; ROW_PLACES]
    ensures { result ≡ replicate most_rows unused_row }
{
    [UNUSED; ROW_PLACES]
}

// The automaton that a file holds, or the reason for which its checks refuse it: one pass over the bytes, in which the value grows record by record.
pub fn read(file: &[u8]) -> Result<Automaton, Refused>
    ensures { read_of result ≡ read_answer file.now }
{
    let (states, finals, mut rest) = reader::head(file)?;
    let mut found = Automaton {
        states,
        finals,
        symbols: 0,
        arities: [0; SYMBOL_PLACES],
        count: 0,
        rows: no_rows(),
    };
    loop {
        let record = reader::first_record(rest, |kind| found.may_have(kind))?;
        match record.kind {
            Kind::Head => unreachable!(),
            Kind::Symbol => found.add_symbol(record.payload)?,
            Kind::Row => found.add_row(record.payload)?,
            Kind::End if record.rest.is_empty() => return Ok(found),
            Kind::End => return Err(Refused::PastEnd),
        }
        rest = record.rest;
    }
}
