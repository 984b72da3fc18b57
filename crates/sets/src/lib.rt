// Sets of states: sixteen bits, bit i for state i. Any number is taken as a state; 16 and more is in no set, as a shift by so much leaves no bit.
#![tactic(auto)]

ghost use Rattle.sets.specs.Promises.{IsEmpty, IsOne, IsOfWord, IsUnion, SaysMember, SaysPast, IsWithout, IsCount};

// The most states that a set can have: the bits of a set.
pub const MOST_STATES: u8 = 16;

#[repr(C)]
#[derive(Clone, Copy, PartialEq, Eq, Debug)]
pub struct StateSet(pub u16);

impl StateSet {
    // The requirements ask for both, a constant and a function (12.10).
    pub const EMPTY: StateSet = StateSet(0);

    // The empty set.
    pub fn empty() -> Self
        ensures { IsEmpty result }
    {
        StateSet::EMPTY
    }

    // The set of one state, which is empty where the number is no state.
    pub fn one(state: u32) -> Self
        ensures { IsOne state result }
    {
        StateSet(1u16.unbounded_shl(state))
    }

    // The states that a word has as a set: its low sixteen bits; by a mask and `as`, since the others are meant to go.
    pub fn of_word(word: u32) -> Self
        ensures { IsOfWord word result }
    {
        StateSet((word & 0xffff) as u16)
    }

    // What is in this set or in the other.
    pub fn union(self, other: StateSet) -> Self
        ensures { IsUnion self other result }
    {
        StateSet(self.0 | other.0)
    }

    // Is the state in this set? The test stands before the shift, since `unbounded_shr` would cost two instructions more here.
    pub fn has(self, state: u32) -> bool
        ensures { SaysMember self state result }
    {
        state < u16::BITS && (self.0 >> state) & 1 == 1
    }

    // Has this set a member at or past the count?
    pub fn past(self, count: u8) -> bool
        ensures { SaysPast self count result }
    {
        self.0.unbounded_shr(u32::from(count)) != 0
    }

    // This set with one state taken out.
    pub fn without(self, state: u32) -> Self
        ensures { IsWithout self state result }
    {
        StateSet(self.0 & !StateSet::one(state).0)
    }

    // How many states are in this set.
    pub fn count(self) -> u32
        ensures { IsCount self result }
    {
        self.0.count_ones()
    }
}
