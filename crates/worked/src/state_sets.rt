// Sets of states.
use crate::say::say;
use sets::StateSet;

// The set, its count, whether 15 and 16 are in it, and what is left without 15 and without 16.
pub fn tell(name: &str, set: StateSet) {
    say!(name, ": ", set, ", count ", set.count());
    say!(", has 15: ", set.has(15), ", has 16: ", set.has(16));
    say!(", without 15: ", set.without(15));
    say!(", without 16: ", set.without(16), "\n")
}
