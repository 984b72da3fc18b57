// The cases, in the order of their lines.
use crate::drafts::{
    AFTER, CHAINS, CUT, ENDED, ENDLESS, FINALLESS, LONG, MANY, NESTED, NO_BYTES, P, PAIRS, ROWLESS,
    UNREACHED,
};
use crate::say::{LENT, LENT_BYTE};
use crate::{conversions, runs, state_sets, tables, values};
use expressions::Shape;
use sets::StateSet;

pub fn p_converted() {
    // Whole, in just enough room, a word less, and some more.
    conversions::wholly(&P, &mut [LENT; 60]);
    conversions::wholly(&P, &mut [LENT; 59]);
    conversions::wholly(&P, &mut [LENT; 67]);
    conversions::wholly(&P, &mut [LENT; 0]);
    // After one state; after none and all of them too, and one more than there are states.
    conversions::partly(&P, 0, &mut [LENT; 36]);
    conversions::partly(&P, 1, &mut [LENT; 60]);
    conversions::partly(&P, 2, &mut [LENT; 60]);
    conversions::partly(&P, 3, &mut [LENT; 60]);
    conversions::partly(&P, 0, &mut [LENT; 35]);
    conversions::partly(&P, 1, &mut [LENT; 47]);
    conversions::partly(&P, u32::MAX, &mut [LENT; 0])
}

pub fn others_converted() {
    conversions::wholly(&PAIRS, &mut [LENT; 48]);
    conversions::wholly(&NESTED, &mut [LENT; 36]);
    conversions::wholly(&ENDLESS, &mut [LENT; 30]);
    conversions::wholly(&UNREACHED, &mut [LENT; 60]);
    conversions::wholly(&ROWLESS, &mut [LENT; 12]);
    conversions::partly(&ROWLESS, 1, &mut [LENT; 12]);
    conversions::wholly(&FINALLESS, &mut [LENT; 18])
}

// Trees of P, and words that are no tree.
pub fn p_run() {
    runs::run(&P, &[1, 0, 0]);
    runs::run(&P, &[1, 1, 0, 0, 0]);
    runs::run(&P, &[1, 0, 1, 0, 0]);
    runs::run(&P, &[0]);
    runs::run(&P, &[1, 0]);
    runs::run(&P, &[0, 0]);
    runs::run(&P, &[]);
    runs::run(&P, &[2])
}

pub fn others_run() {
    runs::run(&PAIRS, &[2, 0, 0]);
    runs::run(&PAIRS, &[2, 0, 1]);
    runs::run(&PAIRS, &[2, 1, 0]);
    runs::run(&PAIRS, &[2, 1, 1]);
    runs::run(&PAIRS, &[2, 2, 0, 0, 0]);
    runs::run(&NESTED, &[1, 1, 0, 0, 0]);
    runs::run(&UNREACHED, &[2, 0]);
    runs::run(&UNREACHED, &[1, 0])
}

// The longest tree, and one symbol more.
pub fn chains_run() {
    let mut chain = [1; 4097];
    chain[4096] = 0;
    runs::run_chain(&CHAINS, &chain[1..]);
    runs::run_chain(&CHAINS, &chain)
}

pub fn productive_states() {
    for draft in &[P, ENDLESS, ROWLESS, FINALLESS, UNREACHED] {
        runs::productive(draft)
    }
}

// P is written with other numbers of states too.
pub fn files_read_and_written() {
    values::read(&P);
    values::read(&ROWLESS);
    values::read(&UNREACHED);
    values::write(&P, 2, &mut [LENT_BYTE; 43]);
    values::write(&P, 2, &mut [LENT_BYTE; 42]);
    values::write(&P, 2, &mut [LENT_BYTE; 45]);
    values::write(&P, 1, &mut [LENT_BYTE; 43]);
    values::write(&P, 17, &mut [LENT_BYTE; 2])
}

// Files that are refused, at every entry that takes one.
pub fn files_refused() {
    for draft in &[CUT, NO_BYTES, ENDED, LONG, MANY, AFTER] {
        values::read(draft);
        runs::run(draft, &[0]);
        runs::productive(draft);
        conversions::wholly(draft, &mut [LENT; 6]);
        conversions::partly(draft, 0, &mut [LENT; 6]);
        conversions::printed(draft, &mut [LENT; 6], &mut [LENT_BYTE; 12])
    }
}

pub fn texts_printed() {
    conversions::printed(&P, &mut [LENT; 60], &mut [LENT_BYTE; 130]);
    conversions::printed(&P, &mut [LENT; 59], &mut [LENT_BYTE; 130]);
    conversions::printed(&P, &mut [LENT; 60], &mut [LENT_BYTE; 122]);
    conversions::printed(&ROWLESS, &mut [LENT; 13], &mut [LENT_BYTE; 26]);
    conversions::printed(&CUT, &mut [LENT; 6], &mut [LENT_BYTE; 9])
}

pub fn nodes_made() {
    let hole_3 = tables::hole(3);
    tables::make("empty", &mut [LENT; 6], 0, tables::EMPTY);
    tables::make("hole 3", &mut [LENT; 13], 1, hole_3);
    tables::make("hole 15", &mut [LENT; 6], 0, tables::hole(15));
    tables::make("symbol 31", &mut [LENT; 6], 0, tables::leaf(31));
    tables::make("hole 3", &mut [LENT; 13], 2, hole_3);
    tables::make("hole 3", &mut [LENT; 13], 4096, hole_3);
    tables::make("hole 16", &mut [LENT; 6], 0, tables::hole(16));
    let kind_6 = Shape {
        kind: 6,
        ..tables::EMPTY
    };
    tables::make("kind 6", &mut [LENT; 6], 0, kind_6);
    tables::make("symbol 32", &mut [LENT; 6], 0, tables::leaf(32));
    let of_itself = tables::iteration(0, 0);
    tables::make("a child that is not there", &mut [LENT; 6], 0, of_itself);
    let with_child = Shape { first: 1, ..hole_3 };
    tables::make("a child that is not used", &mut [LENT; 12], 1, with_child)
}

pub fn p_checked() {
    let table = tables::of_p();
    tables::check("P", &table, 10, 9);
    tables::check("P", &table, 3, 2);
    tables::check("P", &table, 10, 10);
    tables::check("P", &table, 11, 9);
    tables::check("P", &table, 0, 0);
    tables::check("P", &table, usize::MAX, 9)
}

// P's table with its last node changed, whose words from 54 on are its kind, its label, three children and its open set.
pub fn changes_checked() {
    tables::check("P with kind 6", &tables::changed(54, 6), 10, 9);
    tables::check("P with state 16", &tables::changed(55, 16), 10, 9);
    tables::check("P with child 9 of 9", &tables::changed(56, 9), 10, 9);
    tables::check("P with an unused child", &tables::changed(58, 1), 10, 9);
    tables::check(
        "P with an open state too many",
        &tables::changed(59, 1),
        10,
        9,
    );
    tables::check(
        "P with a bit past the sets",
        &tables::changed(59, 65536),
        10,
        9,
    )
}

// At the end the largest sizes that are counted, and the first that is held.
pub fn sizes_measured() {
    tables::measure(10, 9, &mut [LENT; 12]);
    tables::measure(10, 9, &mut [LENT; 9]);
    tables::measure(10, 10, &mut [LENT; 9]);
    tables::measure_doubled(30);
    tables::measure_doubled(31);
    tables::measure_doubled(32)
}

pub fn p_listed() {
    tables::list(10, 9, &mut [LENT_BYTE; 125]);
    tables::list(10, 9, &mut [LENT_BYTE; 122]);
    tables::list(10, 10, &mut [LENT_BYTE; 4])
}

pub fn sets_told() {
    state_sets::tell("set of none", StateSet::empty());
    state_sets::tell("set of 0", StateSet::one(0));
    state_sets::tell("set of 15", StateSet::one(15));
    state_sets::tell("set of 16", StateSet::one(16));
    let three = StateSet::one(3);
    state_sets::tell("union of 3 and 15", three.union(StateSet::one(15)));
    state_sets::tell("union of 3 and 16", three.union(StateSet::one(16)))
}
