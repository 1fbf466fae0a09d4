// Join (kind 5) on places.

#![tactic(auto)]

ghost use Rattle.std.specs.Prelude.{◌≡◌, true, ℕ, ◌+◌, ◌*◌, ◌≤◌, length, take};
ghost use Rattle.model.specs.Row.{ascending, max_rows};
ghost use Rattle.model.specs.Algebra.{join_rows};
ghost use Rattle.model.specs.Areas.{place_size, stride};
ghost use Rattle.rows.specs.Rows.{row_at, first_rows};
ghost use Rattle.nodes.specs.Nodes.{pairs_of};
ghost use Rattle.places.specs.Places.{Place, Blank, relation_in, Stands, Stored, Makes, insert_all};
ghost use Rattle.masks.specs.Masks.{JoinFits};
ghost use Rattle.keys.specs.Keys.{side_columns, KeyedRows};
ghost use Rattle.keys.specs.Chains.{Chained};
ghost use Rattle.joins.specs.Joins.{joined_with, joined_rows, JoinsIn};

use masks::Joining;
use rows::{MAX_ROWS, STRIDE};

// Row i of the left place with each right row that agrees, which are those with its key, put among the rows of a place:
// only the right rows of its key's slot are looked at.
fn join_row(
    left: &[u32],
    i: usize,
    right: &[u32],
    m: usize,
    how: Joining,
    keys: &[u64; MAX_ROWS],
    heads: &[u8; MAX_ROWS],
    next: &[u8; MAX_ROWS],
    out: &mut [u32],
    count: usize,
) -> Option<usize>
    requires { (i * stride + stride ≤ length left.now) × (m * stride ≤ length right.now) × JoinFits how
        × Stands (first_rows out.old count) out.old count × (ascending (first_rows out.old count) ≡ true)
        × (length out.old ≡ place_size) × (m ≤ max_rows)
        × KeyedRows (side_columns 1 (pairs_of how.p how.pairs)) right.now m keys.now
        × Chained keys.now m 0 heads.now next.now }
    ensures { Stored
        (insert_all (joined_with how (first_rows right.now m) (row_at stride left.now i))
        (first_rows out.old count))
        out.new result }
{
    let key = keys::key_of(left, i, &how.pairs, how.p, 0);
    let mut rows = count;
    let slot = keys::slot_of(key);
    let mut at = heads[slot] as usize;
    // Not a `for`: it follows a chain.
    while at < m {
        let j = at;
        at = next[j] as usize;
        if keys[j] == key {
            let row = columns::columns_row(left, i, right, j, how.split, &how.columns, how.n);
            rows = places::put_row(out, rows, &row, 0)?;
        }
    }
    Some(rows)
}

// The rows that all left and right rows make, in an empty place: how many, or None where they are more than 64.
fn join_all(
    left: &[u32],
    n: usize,
    right: &[u32],
    m: usize,
    how: Joining,
    out: &mut [u32],
) -> Option<usize>
    requires { (n * stride ≤ length left.now) × (m * stride ≤ length right.now) × JoinFits how
        × Blank out.old × (m ≤ max_rows) }
    ensures { Stored (joined_rows how (first_rows left.now n) (first_rows right.now m))
        out.new result }
{
    let keys = keys::keys_of(right, m, &how.pairs, how.p, 1);
    let mut heads = [m as u8; MAX_ROWS];
    let mut next = [0u8; MAX_ROWS];
    keys::chain_keys(&keys, m, &mut heads, &mut next);
    let mut count = 0;
    for i in 0..n {
        count = join_row(left, i, right, m, how, &keys, &heads, &next, out, count)?;
    }
    Some(count)
}

// The same, with the right rows masked if that brings anything.
fn join_masked(
    left: &[u32],
    n: usize,
    right: &[u32],
    m: usize,
    how: Joining,
    out: &mut [u32],
) -> Option<usize>
    requires { (n * stride ≤ length left.now) × (m * stride ≤ length right.now) × JoinFits how
        × Blank out.old × (m ≤ max_rows) }
    ensures { Stored (joined_rows how (first_rows left.now n) (first_rows right.now m))
        out.new result }
{
    if n <= 1 {
        return join_all(left, n, right, m, how, out);
    }
    let used = masks::used_columns(how, 1, how.split, how.split + STRIDE);
    if masks::leaves_rows(right, m, &used) {
        return join_all(left, n, right, m, how, out);
    }
    let mut masked = [0u32; MAX_ROWS * STRIDE];
    let k = masked_rows::mask_unordered(right, m, &used, &mut masked);
    join_all(left, n, &masked, k, how, out)
}

// The rows of a join, in an empty place: how many, or None where they are more than 64.
pub fn join_rows(
    left: &[u32],
    n: usize,
    right: &[u32],
    m: usize,
    how: Joining,
    out: &mut [u32],
) -> Option<usize>
    requires { (n * stride ≤ length left.now) × (m * stride ≤ length right.now) × JoinFits how
        × Blank out.old × (m ≤ max_rows) }
    ensures { (w : ℕ) → Place how.split left.now n → Place w right.now m →
        JoinsIn how w →
        Makes (join_rows (pairs_of how.p how.pairs) (take how.n how.columns)
        (relation_in how.split left.now n) (relation_in w right.now m)) out.new result }
{
    // `|`: one test in place of two.
    if (m <= 1) | (MAX_ROWS < n) {
        return join_masked(left, n, right, m, how, out);
    }
    let used = masks::used_columns(how, 0, 0, how.split);
    if masks::leaves_rows(left, n, &used) {
        return join_masked(left, n, right, m, how, out);
    }
    let mut masked = [0u32; MAX_ROWS * STRIDE];
    let k = masked_rows::mask_unordered(left, n, &used, &mut masked);
    join_masked(&masked, k, right, m, how, out)
}
