// Events on a table's rows.

#![tactic(auto)]

ghost use Rattle.std.specs.Prelude.{◌≡◌, cond, ◌+◌, ◌*◌, ◌≤◌, ◌<◌, eqb, length};
ghost use Rattle.model.specs.Record.{field_at, kind_at, offsets};
ghost use Rattle.model.specs.Batch.{row_in, folded_rows};
ghost use Rattle.model.specs.Areas.{padded, folded_size, stride};
ghost use Rattle.model.specs.Row.{max_rows, max_width};
ghost use Rattle.rows.specs.Rows.{first_rows};
ghost use Rattle.tables.specs.Fold.{StandsFolded, Table, act_on, fold_at, Foldable};

use records::{Action, MAX_EVENTS};
use rows::{MAX_ROWS, STRIDE};

// How many rows a table may have in the middle of a batch, and their words.
pub const FOLDED_ROWS: usize = MAX_ROWS + MAX_EVENTS;

pub const FOLDED: usize = FOLDED_ROWS * STRIDE;

// The row of the event at an offset, then zeros.
fn event_row(bytes: &[u8], at: usize, width: usize) -> [u32; STRIDE]
    requires { (width ≤ max_width) × (at + 6 + 4 * width ≤ length bytes.now) }
    ensures { result ≡ padded stride (row_in bytes.now (at + 6) width) }
{
    let mut row = [0u32; STRIDE];
    for k in 0..width {
        row[k] = records::u32_at(bytes, at + 6 + 4 * k);
    }
    row
}

// Whether the event at an offset puts its row in.
fn is_put(bytes: &[u8], at: usize) -> bool
    requires { at + 4 ≤ length bytes.now }
    ensures { result ≡ eqb (kind_at bytes.now at) 32 }
{
    matches!(
        Action::try_from(records::u16_at(bytes, at + 2)),
        Ok(Action::Put)
    )
}

// The event at an offset on the first n rows: how many rows there are afterwards.
fn act(words: &mut [u32], n: usize, bytes: &[u8], at: usize, width: usize) -> usize
    requires { (width ≤ max_width) × (at + 6 + 4 * width ≤ length bytes.now) × Table words.old n
        × (n < folded_rows) × (length words.old ≡ folded_size) }
    ensures folds { StandsFolded (act_on bytes.now at width (first_rows words.old n))
        words.new result }
    ensures grows { result ≤ n + 1 }
{
    let row = event_row(bytes, at, width);
    if is_put(bytes, at) {
        match insertions::insert(words, n, &row, 0, FOLDED_ROWS) {
            Some(true) => n + 1,
            Some(false) | None => n,
        }
    } else if insertions::remove(words, n, &row, 0) {
        n - 1
    } else {
        n
    }
}

// The event at an offset on a table's rows, if it is on that table: how many rows there are afterwards.
fn fold_one(
    words: &mut [u32],
    n: usize,
    bytes: &[u8],
    at: usize,
    table: usize,
    width: usize,
) -> usize
    requires { (width ≤ max_width) × (at + 6 ≤ length bytes.now)
        × (field_at bytes.now at 0 ≡ table → at + 6 + 4 * width ≤ length bytes.now)
        × Table words.old n × (n < folded_rows) × (length words.old ≡ folded_size) }
    ensures folds { StandsFolded
        (cond (eqb (field_at bytes.now at 0) table)
        (act_on bytes.now at width (first_rows words.old n))
        (first_rows words.old n)) words.new result }
    ensures grows { result ≤ n + 1 }
{
    if records::field_at(bytes, at, 0) == table {
        return act(words, n, bytes, at, width);
    }
    n
}

// The events of a table, in order, on its rows: how many there are afterwards.
pub fn fold(words: &mut [u32], n: usize, bytes: &[u8], table: usize, width: usize) -> usize
    requires { Foldable bytes.now table width × Table words.old n × (n ≤ max_rows)
        × (length words.old ≡ folded_size) }
    ensures { StandsFolded (fold_at bytes.now table width (offsets bytes.now)
        (first_rows words.old n))
        words.new result }
{
    let mut count = n;
    let mut at = 0;
    while at < bytes.len() {
        let here = at;
        count = fold_one(words, count, bytes, here, table, width);
        at = here + records::u16_at(bytes, here);
    }
    count
}
