// The records of a file, and what each adds to the automaton.
ghost use Rattle.std.specs.Prelude.{◌≡◌, ◌≤◌, Bool, true, false, length, MatchResult};
ghost use Rattle.automaton.specs.Held.{Held, most_symbols, most_arity};
ghost use Rattle.automaton.specs.Checks.{SoFar, nothing, given, wrong, kind_allowed, length_allowed, symbol_values, all_below, row_values, record_found};
ghost use Rattle.ground.specs.Lists.{filled};
ghost use Rattle.automaton.specs.Refusals.{number_of};
ghost use Rattle.automaton.specs.Inside.{code_of, IsKind, RecordRead, HeadRead, Says, Added};

use crate::{
    Automaton, MOST_ARITY, MOST_ROWS, MOST_STATES, MOST_SYMBOLS, Refused, Row, SOURCE_PLACES,
};
use sets::StateSet;

// The kinds of records, by their numbers in the file.
#[derive(Clone, Copy, PartialEq, Eq)]
pub enum Kind {
    Head = 1,
    Symbol = 2,
    Row = 3,
    End = 9,
}

impl TryFrom<u16> for Kind {
    type Error = Refused;

    ghost try_from_gives = { IsKind };

    fn try_from(number: u16) -> Result<Self, Refused> {
        match number {
            1 => Ok(Kind::Head),
            2 => Ok(Kind::Symbol),
            3 => Ok(Kind::Row),
            9 => Ok(Kind::End),
            _ => Err(Refused::Kind),
        }
    }
}

impl Kind {
    // May the payload of such a record have this length?
    fn takes(self, size: u16) -> bool
        ensures { result ≡ length_allowed (code_of self) size }
    {
        match self {
            Kind::Head => size == 3,
            Kind::Symbol => size == 1,
            Kind::Row => (2..=5).contains(&size),
            Kind::End => size == 0,
        }
    }
}

// A record whose kind may stand where it stands and has such a length, and the bytes after it.
#[derive(Clone, Copy)]
pub struct Record<'a> {
    pub kind: Kind,
    pub payload: &'a [u8],
    pub rest: &'a [u8],
}

// The first record of these bytes, or the first of the checks before its values that fails.
pub fn first_record<'a, F: Fn(Kind) -> bool>(
    bytes: &'a [u8],
    allowed: F,
) -> Result<Record<'a>, Refused>
    requires { F.IsAlwaysCallable allowed }
    ensures { (so_far : SoFar) → ((kind : Kind) (yes : Bool) → F.post allowed kind yes → yes ≡ kind_allowed so_far (code_of kind))
        → MatchResult result (λ r. RecordRead so_far bytes.now r.kind r.payload.now r.rest.now) (λ reason. record_found so_far bytes.now ≡ wrong (number_of reason)) }
{
    let [size_low, size_high, kind_low, kind_high, rest @ ..] = bytes else {
        return Err(Refused::BreaksOff);
    };
    let size = u16::from_le_bytes([*size_low, *size_high]);
    let kind = Kind::try_from(u16::from_le_bytes([*kind_low, *kind_high]))?;
    if !allowed(kind) {
        return Err(Refused::Kind);
    }
    if !kind.takes(size) {
        return Err(Refused::Length);
    }
    let Some((payload, rest)) = rest.split_at_checked(usize::from(size)) else {
        return Err(Refused::BreaksOff);
    };
    Ok(Record {
        kind,
        payload,
        rest,
    })
}

// How many states there are and which are final, of the first record, and the bytes after it.
pub fn head(file: &[u8]) -> Result<(u8, StateSet, &[u8]), Refused>
    ensures { MatchResult result (λ r. HeadRead file.now r.0 r.1 r.2.now) (λ reason. record_found nothing file.now ≡ wrong (number_of reason)) }
{
    let record = first_record(file, |kind| kind == Kind::Head)?;
    let payload = record.payload;
    let states = payload[0];
    let finals = StateSet(u16::from_le_bytes([payload[1], payload[2]]));
    if states < 1 || MOST_STATES < states || finals.past(states) {
        return Err(Refused::Limit);
    }
    Ok((states, finals, record.rest))
}

// The sources of a row in their places, where each is a state.
fn places_of(sources: &[u8], states: u8) -> Result<[u8; SOURCE_PLACES], Refused>
    requires { length sources.now ≤ most_arity }
    ensures { MatchResult result (λ places. (all_below states sources.now ≡ true) × (places ≡ filled most_arity 0 sources.now)) (λ reason. (number_of reason ≡ 4) × (all_below states sources.now ≡ false)) }
{
    let mut places = [0; SOURCE_PLACES];
    // A turn for each place and not for each source: it is faster, as the number of places is fixed.
    for (i, place) in places.iter_mut().enumerate() {
        let Some(&state) = sources.get(i) else { break };
        if states <= state {
            return Err(Refused::Limit);
        }
        *place = state;
    }
    Ok(places)
}

impl Automaton {
    // May a record of this kind follow what is found so far?
    pub(crate) fn may_have(&self, kind: Kind) -> bool
        ensures { (held : Held) → Says held self.now → result ≡ kind_allowed (given held) (code_of kind) }
    {
        match kind {
            Kind::Head => false,
            Kind::Symbol => self.count == 0,
            Kind::Row | Kind::End => self.symbols != 0,
        }
    }

    // One more symbol, of the arity that the payload says.
    pub(crate) fn add_symbol(&mut self, payload: &[u8]) -> Result<(), Refused>
        requires { length payload.now ≡ 1 }
        ensures { (held : Held) → Says held self.old → Added (symbol_values held payload.now) self.new result }
    {
        let arity = payload[0];
        if MOST_SYMBOLS <= self.symbols || MOST_ARITY < arity {
            return Err(Refused::Limit);
        }
        self.arities[usize::from(self.symbols)] = arity;
        self.symbols += 1;
        Ok(())
    }

    // One more row, as the payload says it.
    pub(crate) fn add_row(&mut self, payload: &[u8]) -> Result<(), Refused>
        requires few { self.old.symbols ≤ most_symbols }
        requires two { 2 ≤ length payload.now }
        requires five { length payload.now ≤ 5 }
        ensures { (held : Held) → Says held self.old → Added (row_values held payload.now) self.new result }
    {
        let [symbol, target, sources @ ..] = payload else {
            unreachable!();
        };
        if MOST_ROWS <= self.count || self.symbols <= *symbol {
            return Err(Refused::Limit);
        }
        if sources.len() != usize::from(self.arities[usize::from(*symbol)]) {
            return Err(Refused::Length);
        }
        if self.states <= *target {
            return Err(Refused::Limit);
        }
        let sources = places_of(sources, self.states)?;
        self.rows[usize::from(self.count)] = Row {
            symbol: *symbol,
            target: *target,
            sources,
        };
        self.count += 1;
        Ok(())
    }
}
