// One pass over two places: how the next rows compare, and rows written behind those of a place.

#![tactic(auto)]

ghost use Rattle.std.specs.Prelude.{◌≡◌, ◌+◌, ◌*◌, ◌-◌, ◌≤◌, length};
ghost use Rattle.model.specs.Row.{max_rows};
ghost use Rattle.model.specs.Areas.{stride};
ghost use Rattle.rows.specs.Rows.{row_at, rows_from, first_rows, order_of};
ghost use Rattle.places.specs.Places.{Stands};
ghost use Rattle.merges.specs.Merges.{order_first, Appends};

use rows::STRIDE;
use std::cmp::Ordering;

// How row i of left compares with row j of right's m rows; past the last of them it is less.
pub fn compare_first(left: &[u32], i: usize, right: &[u32], m: usize, j: usize) -> Ordering
    requires { (i * stride + stride ≤ length left.now) × (m * stride ≤ length right.now) }
    ensures { order_of result ≡ order_first (row_at stride left.now i)
        (rows_from stride right.now j (m - j)) }
{
    if j < m {
        rows::compare_rows(left, i, right, j)
    } else {
        Ordering::Less
    }
}

// The rows of src from row i on, k of them, written behind the rows of a place.
pub fn append_rows(src: &[u32], i: usize, k: usize, out: &mut [u32], count: usize)
    requires { Stands (first_rows out.old count) out.old count × (i * stride + k * stride ≤ length src.now)
        × (count + k ≤ max_rows) }
    ensures { Appends (rows_from stride src.now i k) out.old count
        out.new (count + k) }
{
    words::copy_run(src, i * STRIDE, out, count * STRIDE, k * STRIDE);
}
