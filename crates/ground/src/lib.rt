// The ground: numbers made wide. The laws of lists, of tests and of decisions stand in proofs/. The claims name these functions; `usize::from` and
// `u32::from` of the library do the same.
#![tactic(auto)]

ghost use Rattle.std.specs.Prelude.{ℕ};
ghost use Rattle.ground.specs.Promises.{IsIndex, IsWidened};

// A byte as an index. It says more than widening does: that the index is a byte's.
pub fn index(byte: u8) -> usize
    ensures { IsIndex byte result }
{
    usize::from(byte)
}

// A number that fits a word.
pub trait Wide {
    // The number that a value is.
    ghost number: { Self → ℕ };

    // The same number as a word.
    fn wide(self) -> u32
        ensures { IsWidened (number self) result };
}

// The two bodies are spelled apart, so that a wrong version of one is not one of the other.
impl Wide for u8 {
    ghost number = { λ byte. byte };

    fn wide(self) -> u32 {
        self.into()
    }
}

impl Wide for u16 {
    ghost number = { λ number. number };

    fn wide(self) -> u32 {
        u32::from(self)
    }
}
