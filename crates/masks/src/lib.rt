// Masks: the columns that a join uses of a side, and whether a mask changes any row.

#![tactic(auto)]

ghost use Rattle.std.specs.Prelude.{◌≡◌, true, ◌+◌, ◌*◌, ◌≤◌, ◌<◌, length, take};
ghost use Rattle.model.specs.Network.{pairs_below};
ghost use Rattle.model.specs.Areas.{stride};
ghost use Rattle.rows.specs.Rows.{first_rows};
ghost use Rattle.nodes.specs.Nodes.{pairs_of};
ghost use Rattle.masks.specs.Masks.{JoinFits, pair_columns, columns_from, keeping, used_columns};
ghost use Rattle.masks.specs.Masks.{leaves_column, leaves_rows};

use nodes::MAX_PAIRS;
use rows::STRIDE;

// The column of a mask that keeps nothing: the first of the zeros behind a row.
const MASKED: u16 = STRIDE as u16;

// A join: the left rows' width, its pairs' columns, left and right in turn, and the columns that it gives.
#[derive(Clone, Copy)]
pub struct Joining {
    pub split: usize,
    pub p: usize,
    pub pairs: [u16; 2 * MAX_PAIRS],
    pub n: usize,
    pub columns: [u16; STRIDE],
}

// A mask made to keep the columns of pairs on a side, left 0 or right 1.
fn keep_pairs(used: &mut [u16; STRIDE], pairs: &[u16], p: usize, side: usize)
    requires { (length used.old ≡ stride) × (2 * p ≤ length pairs.now) × (side ≤ 1)
        × (pairs_below stride stride (pairs_of p pairs.now) ≡ true) }
    ensures { used.new ≡ keeping (pair_columns pairs.now p side) used.old }
{
    for j in 0..p {
        let c = pairs[2 * j + side];
        used[c as usize] = c;
    }
}

// A mask made to keep those columns, counted from the first, that are below the end.
fn keep_columns(used: &mut [u16; STRIDE], columns: &[u16], n: usize, first: usize, end: usize)
    requires { (length used.old ≡ stride) × (n ≤ length columns.now) × (end ≤ first + stride) }
    ensures { used.new ≡ keeping (columns_from first end (take n columns.now))
        used.old }
{
    for j in 0..n {
        let c = columns[j] as usize;
        if first <= c && c < end {
            used[c - first] = (c - first) as u16;
        }
    }
}

// The mask of what a join uses of a side, whose columns are from the first up to the end.
pub fn used_columns(how: Joining, side: usize, first: usize, end: usize) -> [u16; STRIDE]
    requires { JoinFits how × (side ≤ 1) × (end ≤ first + stride) }
    ensures { result ≡ used_columns how side first end }
{
    let mut used = [MASKED; STRIDE];
    keep_pairs(&mut used, &how.pairs, how.p, side);
    keep_columns(&mut used, &how.columns, how.n, first, end);
    used
}

// Whether a mask leaves column k of every row as it is: it keeps the column, or every field there is 0.
fn leaves_column(rows: &[u32], n: usize, used: &[u16; STRIDE], k: usize) -> bool
    requires { (n * stride ≤ length rows.now) × (k < stride) }
    ensures { result ≡ leaves_column used.now (first_rows rows.now n) k }
{
    used[k] != MASKED || row_checks::zero_field(rows, n, k)
}

// Whether a mask leaves every row as it is.
pub fn leaves_rows(rows: &[u32], n: usize, used: &[u16; STRIDE]) -> bool
    requires { n * stride ≤ length rows.now }
    ensures { result ≡ leaves_rows used.now (first_rows rows.now n) }
{
    for k in 0..STRIDE {
        if !leaves_column(rows, n, used, k) {
            return false;
        }
    }
    true
}
