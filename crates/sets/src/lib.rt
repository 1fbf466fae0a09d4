// Difference and intersection (kinds 7 and 8) on places, by one pass over both.

#![tactic(auto)]

ghost use Rattle.std.specs.Prelude.{◌≡◌, true, [], ℕ, ◌+◌, ◌*◌, ◌<◌, ◌≤◌, length};
ghost use Rattle.model.specs.Row.{ascending, keep_if, max_rows};
ghost use Rattle.model.specs.Algebra.{difference_rows, intersect_rows};
ghost use Rattle.model.specs.Areas.{stride};
ghost use Rattle.rows.specs.Rows.{row_at, first_rows};
ghost use Rattle.places.specs.Places.{Place, Blank, relation_in, Fills, Stands};
ghost use Rattle.merges.specs.Merges.{kept_by, Appends};

use std::cmp::Ordering;

// Row i of src written behind the rows of a place, if it is wanted: how many they are then.
fn append_wanted(src: &[u32], i: usize, wanted: bool, out: &mut [u32], count: usize) -> usize
    requires { Stands (first_rows out.old count) out.old count × (i * stride + stride ≤ length src.now)
        × (count < max_rows) }
    ensures { Appends (keep_if wanted (row_at stride src.now i) []) out.old count
        out.new result }
{
    if wanted {
        merges::append_rows(src, i, 1, out, count);
        count + 1
    } else {
        count
    }
}

// The rows of the left place that are in the right one, or those that are not, in an empty place: how many.
fn keep_rows(
    left: &[u32],
    n: usize,
    right: &[u32],
    m: usize,
    wanted: bool,
    out: &mut [u32],
) -> usize
    requires { (n ≤ max_rows) × (n * stride ≤ length left.now) × (m * stride ≤ length right.now)
        × (ascending (first_rows right.now m) ≡ true) × Blank out.old }
    ensures { ascending (first_rows left.now n) ≡ true →
        Stands (kept_by wanted (first_rows left.now n) (first_rows right.now m))
        out.new result }
{
    let mut count = 0;
    let mut i = 0;
    let mut j = 0;
    // Not a `for`: the outcome says which of the two indices moves on.
    while i < n {
        match merges::compare_first(left, i, right, m, j) {
            Ordering::Less => {
                count = append_wanted(left, i, !wanted, out, count);
                i += 1;
            }
            Ordering::Equal => {
                count = append_wanted(left, i, wanted, out, count);
                i += 1;
                j += 1;
            }
            Ordering::Greater => {
                j += 1;
            }
        }
    }
    count
}

// The left place's rows that are not in the right one, in an empty place: how many.
pub fn difference_rows(left: &[u32], n: usize, right: &[u32], m: usize, out: &mut [u32]) -> usize
    requires { (n ≤ max_rows) × (n * stride ≤ length left.now) × (m * stride ≤ length right.now)
        × (ascending (first_rows right.now m) ≡ true) × Blank out.old }
    ensures { (w : ℕ) → Place w left.now n → Place w right.now m →
        Fills (difference_rows (relation_in w left.now n) (relation_in w right.now m))
        out.new result }
{
    keep_rows(left, n, right, m, false, out)
}

// The left place's rows that are in the right one too, in an empty place: how many.
pub fn intersect_rows(left: &[u32], n: usize, right: &[u32], m: usize, out: &mut [u32]) -> usize
    requires { (n ≤ max_rows) × (n * stride ≤ length left.now) × (m * stride ≤ length right.now)
        × (ascending (first_rows right.now m) ≡ true) × Blank out.old }
    ensures { (w : ℕ) → Place w left.now n → Place w right.now m →
        Fills (intersect_rows (relation_in w left.now n) (relation_in w right.now m))
        out.new result }
{
    keep_rows(left, n, right, m, true, out)
}
