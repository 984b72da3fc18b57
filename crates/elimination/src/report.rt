// What a stop reports: its list, with what each row waits for.
ghost use Rattle.std.specs.Prelude.{◌≡◌, ◌≤◌, length};
ghost use Rattle.theory.specs.RowLists.{list_places};
ghost use Rattle.elimination.specs.Inside.{reported_row, reported_rows};

use crate::{LIST_PLACES, ListRow, Stopped, maker};
use ground::Wide;
use theory::NodeRow;

const UNUSED: ListRow = ListRow {
    node: 0,
    target: 0,
    waits: 0,
};

// A stop with no node and no row.
pub const NOTHING: Stopped = Stopped {
    nodes: 0,
    rows: 0,
    list: [UNUSED; LIST_PLACES],
};

// A row with its waiting number, which is at most 16, so that `as` cuts nothing off.
fn list_row(words: &[u32], row: NodeRow) -> ListRow
    ensures { result ≡ reported_row words.now row }
{
    let NodeRow { node, target } = row;
    let waits = maker::waits(words, node.wide()) as u8;
    ListRow {
        node,
        target,
        waits,
    }
}

// The list, with the waiting number of each row.
pub fn list_rows(words: &[u32], rows: &[NodeRow]) -> [ListRow; LIST_PLACES]
    requires { length rows.now ≤ list_places }
    ensures { result ≡ reported_rows words.now rows.now }
{
    // By an index, which is also the place: the goals of `iter_mut().zip(rows)` are reached by names of Rattle's own alone, which may change.
    let mut out = NOTHING.list;
    for (i, &row) in rows.iter().enumerate() {
        out[i] = list_row(words, row);
    }
    out
}
