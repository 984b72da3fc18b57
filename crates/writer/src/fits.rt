// Which values a file can hold, and how long their files are. Each assumes what its caller has checked.
ghost use Rattle.std.specs.Prelude.{◌≤◌, length};
ghost use Rattle.ground.specs.Lists.{All};
ghost use Rattle.automaton.specs.Held.{most_arity, most_rows};
ghost use Rattle.writer.specs.Inside.{RowSized, RowsSized, FileSized};

use automaton::{Automaton, MOST_ARITY, MOST_ROWS, MOST_STATES, MOST_SYMBOLS, Row};

// The length of a row's record, where a file can hold the row. That the arities are at most 3 is a clause here and below: a type for it would be
// made once and taken apart at once.
fn row_size(row: &Row, states: u8, arities: &[u8]) -> Option<usize>
    requires { All (λ a. a ≤ most_arity) arities.now }
    ensures { RowSized states arities.now row.now result }
{
    let arity = usize::from(*arities.get(usize::from(row.symbol))?);
    if states <= row.target {
        return None;
    }
    let sources = &row.sources[..arity];
    sources
        .iter()
        .all(|&state| state < states)
        .then_some(6 + arity)
}

// How many bytes the records of these rows take, where a file can hold the rows.
fn rows_size(rows: &[Row], states: u8, arities: &[u8]) -> Option<usize>
    requires length_rows_le_most_rows { length rows.now ≤ most_rows }
    requires all { All (λ a. a ≤ most_arity) arities.now }
    ensures { RowsSized states arities.now rows.now result }
{
    let mut length = 0;
    for row in rows {
        length += row_size(row, states, arities)?;
    }
    Some(length)
}

// The length of the value's file, where there is one.
pub fn file_size(value: &Automaton) -> Option<usize>
    ensures { FileSized value.now result }
{
    if value.states < 1 || MOST_STATES < value.states || value.finals.past(value.states) {
        return None;
    }
    if value.symbols < 1 || MOST_SYMBOLS < value.symbols || MOST_ROWS < value.count {
        return None;
    }
    let arities = &value.arities[..usize::from(value.symbols)];
    if !arities.iter().all(|&arity| arity <= MOST_ARITY) {
        return None;
    }
    let rows = &value.rows[..usize::from(value.count)];
    let length = rows_size(rows, value.states, arities)?;
    Some(11 + 5 * arities.len() + length)
}
