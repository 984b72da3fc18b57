// The lines of a listing: how long they are, and their bytes. A number is converted by `as` where there is no `From`: from `u32` to `usize`, and from `usize` to `u64`.
ghost use Rattle.std.specs.Prelude.{◌≡◌, ◌<◌, ◌≤◌, ◌∷◌, map, length};
ghost use Rattle.ground.specs.Decides.{Decides};
ghost use Rattle.ground.specs.Lists.{All};
ghost use Rattle.buffers.specs.Decimal.{decimal};
ghost use Rattle.buffers.specs.Writing.{Wrote};
ghost use Rattle.expressions.specs.Nodes.{kind_of, children};
ghost use Rattle.expressions.specs.Soundness.{Fits, Sound};
ghost use Rattle.expressions.proofs.Props.{sound-prop};
ghost use Rattle.listing.specs.Listing.{spaced, plain_label, node_line, answer_line};
ghost use Rattle.listing.specs.Answers.{listing_of};
ghost use Rattle.listing.specs.Inside.{name_bytes, number_in, label_bytes, FitsThen};

use crate::{LONGEST_ANSWER, LONGEST_LINE};
use expressions::{ALTERNATION, ARITY_STEP, CONCATENATION, EMPTY, HOLE, ITERATION, SYMBOL, Shape};

// ---- what a line says

// A blank and the name of a kind: a `match` on its number, as the requirements ask of a listing (12.12).
#[tactic(auto, unfolding(crate::specs::Listing::kind_name))]
fn name(kind: u32) -> &'static [u8]
    ensures { result.now ≡ name_bytes kind }
{
    match kind {
        EMPTY => b" empty",
        HOLE => b" hole",
        SYMBOL => b" symbol",
        ALTERNATION => b" alt",
        CONCATENATION => b" cat",
        ITERATION => b" iter",
        _ => b" ",
    }
}

// The number that the label shows, where the kind shows its label: of a symbol the symbol alone. On the kind's number too.
fn label_number(kind: u32, label: u32) -> Option<u32>
    ensures { result ≡ number_in (kind_of kind) label }
{
    match kind {
        HOLE | CONCATENATION | ITERATION => Some(label),
        SYMBOL => Some(label % ARITY_STEP),
        _ => None,
    }
}

// ---- lengths: of each part that is put below. One code for both would go through the bytes also where they are only counted.

// How long a number is, with the blank before it.
fn field_length(n: u32) -> usize
    ensures { result ≡ length (32 ∷ decimal n) }
{
    1 + buffers::digits(u64::from(n))
}

// How long the children are.
fn children_length(shape: Shape) -> usize
    requires { All (λ c. c < 10000) (children shape) }
    ensures { result ≡ length (spaced (map decimal (children shape))) }
{
    let places = shape.places();
    let children = places.iter().take(shape.child_count() as usize);
    children.map(|child| field_length(*child)).sum()
}

// How long the line of a node is.
fn line_length(number: usize, shape: Shape) -> usize
    requires few { number < 10000 }
    requires fits { Fits number shape }
    ensures { result ≡ length (node_line plain_label number shape) }
{
    let label = label_number(shape.kind, shape.label).map_or(0, field_length);
    let head = buffers::digits(number as u64) + name(shape.kind).len() + label;
    head + children_length(shape) + 1
}

// ---- bytes

// The bytes of a listing, and the place as far as which they are written. `put` and `number` are the two functions of `buffers` that C calls, on a page. The page lends no bytes but those that it was given: each method promises it, as `same_bytes`, since an invariant sees only one value of a page.
#[derive(Drop)]
struct Page<'a> {
    out: &'a mut [u8],
    at: usize,
}

impl Page<'_> {
    // Some bytes.
    fn put(&mut self, bytes: &[u8])
        ensures same_bytes { self.new.out.ghost_name ≡ self.old.out.ghost_name }
        ensures wrote { FitsThen self.old.out.now self.old.at bytes.now self.new.out.now self.new.at }
    {
        self.at = buffers::put_bytes(self.out, self.at, bytes);
    }

    // A number.
    fn number(&mut self, n: u64)
        ensures same_bytes { self.new.out.ghost_name ≡ self.old.out.ghost_name }
        ensures wrote { FitsThen self.old.out.now self.old.at (decimal n) self.new.out.now self.new.at }
    {
        self.at = buffers::put_number(self.out, self.at, n);
    }

    // A blank and a number.
    fn field(&mut self, n: u32)
        ensures same_bytes { self.new.out.ghost_name ≡ self.old.out.ghost_name }
        ensures wrote { FitsThen self.old.out.now self.old.at (32 ∷ decimal n) self.new.out.now self.new.at }
    {
        self.put(b" ");
        self.number(u64::from(n));
    }

    // A blank and the name of a kind. Each kind has its arm, so that each name is copied as a constant: a copy by a length that is read first makes a listing an eighth slower.
    fn name(&mut self, kind: u32)
        ensures same_bytes { self.new.out.ghost_name ≡ self.old.out.ghost_name }
        ensures wrote { FitsThen self.old.out.now self.old.at (name_bytes kind) self.new.out.now self.new.at }
    {
        match kind {
            EMPTY => self.put(name(EMPTY)),
            HOLE => self.put(name(HOLE)),
            SYMBOL => self.put(name(SYMBOL)),
            ALTERNATION => self.put(name(ALTERNATION)),
            CONCATENATION => self.put(name(CONCATENATION)),
            ITERATION => self.put(name(ITERATION)),
            _ => self.put(name(kind)),
        }
    }

    // The label, where it is shown.
    fn label(&mut self, kind: u32, label: u32)
        ensures same_bytes { self.new.out.ghost_name ≡ self.old.out.ghost_name }
        ensures wrote { FitsThen self.old.out.now self.old.at (label_bytes (number_in (kind_of kind) label)) self.new.out.now self.new.at }
    {
        if let Some(n) = label_number(kind, label) {
            self.field(n);
        }
    }

    // The children.
    fn children(&mut self, shape: Shape)
        ensures same_bytes { self.new.out.ghost_name ≡ self.old.out.ghost_name }
        ensures wrote { FitsThen self.old.out.now self.old.at (spaced (map decimal (children shape))) self.new.out.now self.new.at }
    {
        let places = shape.places();
        for child in places.iter().take(shape.child_count() as usize) {
            self.field(*child);
        }
    }

    // The line of a node.
    fn line(&mut self, number: usize, shape: Shape)
        ensures same_bytes { self.new.out.ghost_name ≡ self.old.out.ghost_name }
        ensures wrote { FitsThen self.old.out.now self.old.at (node_line plain_label number shape) self.new.out.now self.new.at }
    {
        self.number(number as u64);
        self.name(shape.kind);
        self.label(shape.kind, shape.label);
        self.children(shape);
        self.put(b"\n");
    }

    // The last line.
    fn answer(&mut self, answer: usize)
        ensures same_bytes { self.new.out.ghost_name ≡ self.old.out.ghost_name }
        ensures wrote { FitsThen self.old.out.now self.old.at (answer_line answer) self.new.out.now self.new.at }
    {
        self.put(b"answer ");
        self.number(answer as u64);
        self.put(b"\n");
    }
}

// ---- the listing

// A sound table: its words, how many nodes it has, and its answer. Words and count stand apart, as `Sound` and the public `node_at` take them.
#[derive(Clone, Copy)]
pub struct Table<'a> {
    pub words: &'a [u32],
    pub count: usize,
    pub answer: usize,
    ghost sound: { Sound words.now count answer } by { sound-prop words.now count answer },
}

impl Table<'_> {
    // How long the listing is.
    fn length(&self) -> usize
        ensures { result ≡ length (listing_of self.now.words.now self.now.count self.now.answer) }
    {
        let mut total = 0;
        for i in 0..self.count {
            total += line_length(i, expressions::node_at(self.words, i).shape);
        }
        total + 8 + buffers::digits(self.answer as u64)
    }

    // Does the listing fit so many bytes? Where even the longest lines would, nothing is counted.
    pub fn fits_in(&self, room: usize) -> bool
        ensures { Decides (length (listing_of self.now.words.now self.now.count self.now.answer) ≤ room) result }
    {
        LONGEST_LINE * self.count + LONGEST_ANSWER <= room || self.length() <= room
    }

    // The listing, from the first byte on, and its length.
    pub fn put(&self, out: &mut [u8]) -> usize
        requires { length (listing_of self.now.words.now self.now.count self.now.answer) ≤ length out.old }
        ensures { Wrote out.old 0 (listing_of self.now.words.now self.now.count self.now.answer) out.new result }
    {
        let mut page = Page { out, at: 0 };
        for i in 0..self.count {
            page.line(i, expressions::node_at(self.words, i).shape);
        }
        page.answer(self.answer);
        page.at
    }
}
