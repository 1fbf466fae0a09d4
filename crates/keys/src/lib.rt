// Keys of rows: what a row holds in the columns of a join's pairs, as one number. Rows agree exactly where their keys
// are equal.

#![tactic(auto)]

ghost use Rattle.std.specs.Prelude.{◌≡◌, true, ◌+◌, ◌*◌, ◌≤◌, ◌<◌, length, get_or, replicate};
ghost use Rattle.model.specs.Row.{max_rows};
ghost use Rattle.model.specs.Network.{pairs_below, max_pairs};
ghost use Rattle.model.specs.Areas.{stride};
ghost use Rattle.rows.specs.Rows.{row_at};
ghost use Rattle.nodes.specs.Nodes.{pairs_of};
ghost use Rattle.keys.specs.Keys.{side_columns, Keyed, KeyedRows};
ghost use Rattle.keys.specs.Chains.{slot_of, Chained};

use rows::{MAX_ROWS, STRIDE};

// What a word counts up to.
const WORD: u64 = 4294967296;

// How far apart the slots of two keys are whose second fields differ by 1.
const SPREAD: u64 = 9;

// Row i's field in the column of pair k on a side, left 0 or right 1; the pairs' columns stand in turn.
fn field_on(rows: &[u32], i: usize, pairs: &[u16], k: usize, side: usize) -> u32
    requires { (i * stride + stride ≤ length rows.now) × (2 * k + side < length pairs.now)
        × (get_or pairs.now (2 * k + side) 0 < stride) }
    ensures is { result ≡ get_or (row_at stride rows.now i) (get_or pairs.now (2 * k + side) 0) 0 }
    ensures fits { result < 4294967296 }
{
    rows[i * STRIDE + pairs[2 * k + side] as usize]
}

// The key of row i for the first p pairs on a side.
pub fn key_of(rows: &[u32], i: usize, pairs: &[u16], p: usize, side: usize) -> u64
    requires { (i * stride + stride ≤ length rows.now) × (2 * p ≤ length pairs.now) × (p ≤ max_pairs) × (side ≤ 1)
        × (pairs_below stride stride (pairs_of p pairs.now) ≡ true) }
    ensures { Keyed (side_columns side (pairs_of p pairs.now)) (row_at stride rows.now i)
        result }
{
    if p < 1 {
        return 0;
    }
    let low = field_on(rows, i, pairs, 0, side) as u64;
    if p < 2 {
        return low;
    }
    low + WORD * (field_on(rows, i, pairs, 1, side) as u64)
}

// The keys of the first n rows, then zeros.
pub fn keys_of(rows: &[u32], n: usize, pairs: &[u16], p: usize, side: usize) -> [u64; MAX_ROWS]
    requires { (n ≤ max_rows) × (n * stride ≤ length rows.now) × (2 * p ≤ length pairs.now) × (p ≤ max_pairs)
        × (side ≤ 1) × (pairs_below stride stride (pairs_of p pairs.now) ≡ true) }
    ensures { KeyedRows (side_columns side (pairs_of p pairs.now)) rows.now n result }
{
    let mut keys = [0u64; MAX_ROWS];
    for i in 0..n {
        keys[i] = key_of(rows, i, pairs, p, side);
    }
    keys
}

// The slot of a key: equal keys are in one slot.
pub fn slot_of(key: u64) -> usize
    ensures { result ≡ slot_of key }
{
    ((key % WORD + SPREAD * (key / WORD)) % (MAX_ROWS as u64)) as usize
}

// The first n keys chained by their slots: the first key of each slot, and of each key the next one there, or n.
pub fn chain_keys(
    keys: &[u64; MAX_ROWS],
    n: usize,
    heads: &mut [u8; MAX_ROWS],
    next: &mut [u8; MAX_ROWS],
)
    requires { (n ≤ max_rows) × (heads.old ≡ replicate max_rows n) × (next.old ≡ replicate max_rows 0) }
    ensures { Chained keys.now n 0 heads.new next.new }
{
    for j in (0..n).rev() {
        let slot = slot_of(keys[j]);
        next[j] = heads[slot];
        heads[slot] = j as u8;
    }
}
