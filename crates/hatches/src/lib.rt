// Doors in C's calling convention to the functions on sets and to the helpers, as `doors` and `bridges` have them to the others; the three of `ground` that only
// widen a number have none.
#![tactic(auto)]

ghost use Rattle.sets.specs.Promises.{IsEmpty, IsOne, IsOfWord, IsUnion, SaysMember, SaysPast, IsWithout, IsCount};
ghost use Rattle.buffers.specs.Decimal.{decimal};
ghost use Rattle.buffers.specs.Writing.{Puts};
ghost use Rattle.buffers.specs.Promises.{CountsDigits, Clears};

use sets::StateSet;

// ---- sets

#[unsafe(no_mangle)]
pub extern "C" fn door_set_empty() -> StateSet
    ensures { IsEmpty result }
{
    StateSet::empty()
}

#[unsafe(no_mangle)]
pub extern "C" fn door_set_one(state: u32) -> StateSet
    ensures { IsOne state result }
{
    StateSet::one(state)
}

#[unsafe(no_mangle)]
pub extern "C" fn door_set_of_word(word: u32) -> StateSet
    ensures { IsOfWord word result }
{
    StateSet::of_word(word)
}

#[unsafe(no_mangle)]
pub extern "C" fn door_set_union(set: StateSet, other: StateSet) -> StateSet
    ensures { IsUnion set other result }
{
    set.union(other)
}

#[unsafe(no_mangle)]
pub extern "C" fn door_set_has(set: StateSet, state: u32) -> bool
    ensures { SaysMember set state result }
{
    set.has(state)
}

#[unsafe(no_mangle)]
pub extern "C" fn door_set_past(set: StateSet, count: u8) -> bool
    ensures { SaysPast set count result }
{
    set.past(count)
}

#[unsafe(no_mangle)]
pub extern "C" fn door_set_without(set: StateSet, state: u32) -> StateSet
    ensures { IsWithout set state result }
{
    set.without(state)
}

#[unsafe(no_mangle)]
pub extern "C" fn door_set_count(set: StateSet) -> u32
    ensures { IsCount set result }
{
    set.count()
}

// ---- lent words and bytes

#[unsafe(no_mangle)]
pub extern "C" fn door_zero(words: &mut [u32])
    ensures { Clears words.old words.new }
{
    buffers::zero(words);
}

#[unsafe(no_mangle)]
pub extern "C" fn door_digits(n: u64) -> usize
    ensures { CountsDigits n result }
{
    buffers::digits(n)
}

#[unsafe(no_mangle)]
pub extern "C" fn door_put_bytes(out: &mut [u8], at: usize, bytes: &[u8]) -> usize
    ensures { Puts out.old at bytes.now out.new result }
{
    buffers::put_bytes(out, at, bytes)
}

#[unsafe(no_mangle)]
pub extern "C" fn door_put_number(out: &mut [u8], at: usize, n: u64) -> usize
    ensures { Puts out.old at (decimal n) out.new result }
{
    buffers::put_number(out, at, n)
}
