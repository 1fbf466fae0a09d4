// Union (kind 6) on places, by one pass over both.

#![tactic(auto)]

ghost use Rattle.std.specs.Prelude.{◌≡◌, true, ℕ, ◌*◌, ◌≤◌, length};
ghost use Rattle.model.specs.Row.{ascending, max_rows};
ghost use Rattle.model.specs.Algebra.{union_rows};
ghost use Rattle.model.specs.Areas.{stride};
ghost use Rattle.rows.specs.Rows.{first_rows};
ghost use Rattle.places.specs.Places.{Place, Blank, relation_in, Makes};

use rows::MAX_ROWS;
use std::cmp::Ordering;

// The rows of both places, in an empty place: how many, or None where they are more than 64.
pub fn union_rows(left: &[u32], n: usize, right: &[u32], m: usize, out: &mut [u32]) -> Option<usize>
    requires { (n * stride ≤ length left.now) × (m ≤ max_rows) × (m * stride ≤ length right.now)
        × (ascending (first_rows right.now m) ≡ true) × Blank out.old }
    ensures { (w : ℕ) → Place w left.now n → Place w right.now m →
        Makes (union_rows (relation_in w left.now n) (relation_in w right.now m))
        out.new result }
{
    let mut count = 0;
    let mut i = 0;
    let mut j = 0;
    // Not one pass with sets: that would test for room, and write the right rows, where sets never do. Not a `for`: the
    // outcome says which of the two indices moves on.
    while i < n {
        if MAX_ROWS <= count {
            return None;
        }
        let at = count;
        count += 1;
        match merges::compare_first(left, i, right, m, j) {
            Ordering::Less => {
                merges::append_rows(left, i, 1, out, at);
                i += 1;
            }
            Ordering::Equal => {
                merges::append_rows(left, i, 1, out, at);
                i += 1;
                j += 1;
            }
            Ordering::Greater => {
                merges::append_rows(right, j, 1, out, at);
                j += 1;
            }
        }
    }
    let rest = m - j;
    if MAX_ROWS - count < rest {
        return None;
    }
    merges::append_rows(right, j, rest, out, count);
    Some(count + rest)
}
