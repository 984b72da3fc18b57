// What is put into lent words and bytes: zeros, bytes, and numbers in decimal.
#![tactic(auto)]

ghost use Rattle.std.specs.Prelude.{◌≡◌, ◌+◌, ◌≤◌, length, SomeIff};
ghost use Rattle.buffers.specs.Decimal.{decimal, last_digit};
ghost use Rattle.buffers.specs.Writing.{Puts};
ghost use Rattle.buffers.specs.Promises.{CountsDigits, Clears};

// Every word 0.
pub fn zero(words: &mut [u32])
    ensures { Clears words.old words.new }
{
    words.fill(0);
}

// How many digits a number has. Small numbers are the most usual, and comparing is quicker for them than a logarithm. From `u32` to `usize` there is
// no `From`.
pub fn digits(n: u64) -> usize
    ensures { CountsDigits n result }
{
    if n >= 10_000 {
        return n.ilog10() as usize + 1;
    }
    match n {
        0..=9 => 1,
        10..=99 => 2,
        100..=999 => 3,
        _ => 4,
    }
}

// These bytes from this place on, where they fit (bytes and a place side by side, as C passes them); and the place after them.
pub fn put_bytes(out: &mut [u8], at: usize, bytes: &[u8]) -> usize
    ensures { Puts out.old at bytes.now out.new result }
{
    let Some(end) = end_within(out.len(), at, bytes.len()) else {
        return at;
    };
    // Byte by byte: for a copy in one piece, the archive with the door to this would need `memmove` from outside.
    for (i, &byte) in bytes.iter().enumerate() {
        out[at + i] = byte;
    }
    end
}

// A number's digits from this place on, where they fit; and the place after them.
pub fn put_number(out: &mut [u8], at: usize, n: u64) -> usize
    ensures { Puts out.old at (decimal n) out.new result }
{
    let Some(end) = end_within(out.len(), at, digits(n)) else {
        return at;
    };
    put_digits(&mut out[at..end], n);
    end
}

// The place after so many bytes from this place on, where they fit into the room. No sum is made before that is known, so any place may be asked about.
fn end_within(room: usize, at: usize, count: usize) -> Option<usize>
    ensures { SomeIff result (at + count ≤ room) (at + count) }
{
    let rest = room.checked_sub(at)?;
    (count <= rest).then(|| at + count)
}

// A number's digits into a part that has just their room, from the last to the first. By an index: after `iter_mut().rev()` nothing is known of the bytes.
fn put_digits(part: &mut [u8], n: u64)
    requires { length part.old ≡ length (decimal n) }
    ensures { part.new ≡ decimal n }
{
    let mut left = n;
    for place in (0..part.len()).rev() {
        part[place] = last_digit(left);
        left /= 10;
    }
}

// The last digit of a number, which is below 10, so that `as` cuts nothing off.
fn last_digit(n: u64) -> u8
    ensures { result ≡ last_digit n }
{
    b'0' + (n % 10) as u8
}
