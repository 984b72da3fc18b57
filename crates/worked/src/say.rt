// Standard output, and the pieces that a line is put together from. Each result is said as C has it: the lines have the zeros of a refusal too.
// This is no `fmt::Write` for `write!`: that could not tell a text, whose bytes are written one by one, from a number, whose digits are written together, and what is missing where a write fails may not change (docs/DECISIONS.md, "Today's kit").
use automaton::Refusal;
use sets::StateSet;

// The descriptor of standard output.
const STDOUT_FILENO: i32 = 1;

// What words and bytes are lent with. No table of the drafts has such a word, and no text such a byte.
pub const LENT: u32 = 1234567;

pub const LENT_BYTE: u8 = 255;

// By `as`, since no function of a trait is called in a constant; and so below, where there is no `From`.
const STATES: u32 = sets::MOST_STATES as u32;

// What can be a piece of a line.
pub trait Say {
    fn say(&self);
}

// Says the pieces one after the other.
macro_rules! say {
    ($($piece:expr),+ $(,)?) => {{
        $(crate::say::Say::say(&$piece);)+
    }};
}

pub(crate) use say;

// Where a byte cannot be written, the next one is tried all the same.
fn byte(byte: u8) {
    io::write_all(STDOUT_FILENO, &[byte]);
}

fn number(n: u64) {
    io::print_decimal(STDOUT_FILENO, n);
}

impl Say for &str {
    fn say(&self) {
        for b in self.bytes() {
            byte(b)
        }
    }
}

// The numbers have an impl each, since `rt verdict` refuses impls that a macro of the crate writes.
impl Say for u8 {
    fn say(&self) {
        number(u64::from(*self))
    }
}

impl Say for u16 {
    fn say(&self) {
        number(u64::from(*self))
    }
}

impl Say for u32 {
    fn say(&self) {
        number(u64::from(*self))
    }
}

impl Say for usize {
    fn say(&self) {
        number(*self as u64)
    }
}

impl Say for bool {
    fn say(&self) {
        say!(if *self { "yes" } else { "no" })
    }
}

impl Say for Refusal {
    fn say(&self) {
        match self.number {
            0 => say!("done"),
            number => say!("refused ", number),
        }
    }
}

// The states of a set, as {0 1}.
impl Say for StateSet {
    fn say(&self) {
        say!("{");
        for (i, q) in (0..STATES).filter(|q| self.has(*q)).enumerate() {
            if i > 0 {
                say!(" ")
            }
            say!(q)
        }
        say!("}")
    }
}

// Each with a blank before it.
#[derive(Drop)]
pub struct Spaced<'a, T>(pub &'a [T]);

impl<T: Say> Say for Spaced<'_, T> {
    fn say(&self) {
        for item in self.0 {
            say!(" ", *item)
        }
    }
}

// The bytes of a text in one line: a newline as /, and a byte as it was lent as a dot.
#[derive(Drop)]
pub struct Shown<'a>(pub &'a [u8]);

impl Say for Shown<'_> {
    fn say(&self) {
        for b in self.0 {
            match *b {
                b'\n' => say!("/"),
                LENT_BYTE => say!("."),
                b => byte(b),
            }
        }
    }
}

// How many of the lent words are 0 now, and how many still as they were lent.
#[derive(Drop)]
pub struct Left<'a>(pub &'a [u32]);

impl Say for Left<'_> {
    fn say(&self) {
        let words = self.0;
        let zeros = words.iter().filter(|word| **word == 0).count();
        let kept = words.iter().filter(|word| **word == LENT).count();
        say!("; of ", words.len(), " words ", zeros, " are 0");
        say!(" and ", kept, " as lent")
    }
}
