// Masked rows in no order, with most equal rows once: what a join looks at of a side.

#![tactic(auto)]

ghost use Rattle.std.specs.Prelude.{◌≡◌, true, ◌&&◌, ◌+◌, ◌*◌, ◌≤◌, ltb, length, take};
ghost use Rattle.model.specs.Row.{max_rows, same_row};
ghost use Rattle.model.specs.Network.{columns_below};
ghost use Rattle.model.specs.Areas.{place_size, stride};
ghost use Rattle.rows.specs.Rows.{row_at, first_rows};
ghost use Rattle.masked_rows.specs.MaskedRows.{row_slot, MaskedSet};

use rows::{MAX_ROWS, STRIDE};

// How far apart the slots of two rows are that differ by 1 in the field before the last.
const SPREAD: usize = 9;

// The slot of a row: equal rows are in one slot.
fn slot_of_row(row: &[u32]) -> usize
    requires { length row.now ≡ stride }
    ensures { result ≡ row_slot row.now }
{
    let mut slot = 0;
    for k in 0..STRIDE {
        slot = (slot * SPREAD + row[k] as usize) % MAX_ROWS;
    }
    slot
}

// Whether a row is row at of the first n.
fn stands_at(words: &[u32], n: usize, at: usize, row: &[u32; STRIDE]) -> bool
    requires { (n * stride ≤ length words.now) × (length row.now ≡ stride) }
    ensures { result ≡ (ltb at n
        && same_row (row_at stride row.now 0) (row_at stride words.now at)) }
{
    at < n && rows::compare_rows(row, 0, words, at).is_eq()
}

// The masked rows in no order, at the front of a place: how many. A row that was the last one in its slot is left out.
pub fn mask_unordered(input: &[u32], n: usize, columns: &[u16], out: &mut [u32]) -> usize
    requires { (n ≤ max_rows) × (n * stride ≤ length input.now) × (stride ≤ length columns.now)
        × (columns_below (stride + stride) (take stride columns.now) ≡ true) × (length out.old ≡ place_size) }
    ensures { MaskedSet (take stride columns.now) (first_rows input.now n)
        out.new result }
{
    let zeros = [0u32; STRIDE];
    let mut last = [0usize; MAX_ROWS];
    let mut count = 0;
    for i in 0..n {
        let row = columns::columns_row(input, i, &zeros, 0, STRIDE, columns, STRIDE);
        let slot = slot_of_row(&row);
        if !stands_at(out, count, last[slot], &row) {
            words::copy_run(&row, 0, out, count * STRIDE, STRIDE);
            last[slot] = count;
            count += 1;
        }
    }
    count
}
