// Places that operators fill: a row put among the rows of a place, two places compared.

#![tactic(auto)]

ghost use Rattle.std.specs.Prelude.{◌≡◌, true, ℕ, ◌+◌, ◌*◌, ◌≤◌, length};
ghost use Rattle.model.specs.Row.{ascending, insert_row, same_rows, max_rows};
ghost use Rattle.model.specs.Areas.{place_size, stride};
ghost use Rattle.rows.specs.Rows.{row_at, first_rows};
ghost use Rattle.places.specs.Places.{Stands, Stored, Place, relation_in};

use rows::{MAX_ROWS, STRIDE};

// Row i of src put among the rows of a place, which ascend: how many rows there are then, or None where they would be
// more than 64.
#[inline(always)] // with insertions::insert: a join calls it in its innermost loop
pub fn put_row(out: &mut [u32], n: usize, src: &[u32], i: usize) -> Option<usize>
    requires { Stands (first_rows out.old n) out.old n × (i * stride + stride ≤ length src.now)
        × (ascending (first_rows out.old n) ≡ true) × (length out.old ≡ place_size) }
    ensures { Stored (insert_row (row_at stride src.now i) (first_rows out.old n))
        out.new result }
{
    let is_new = insertions::insert(out, n, src, i, MAX_ROWS)?;
    Some(if is_new { n + 1 } else { n })
}

// Whether two places, of n and of m rows, hold the same rows.
pub fn same_rows(a: &[u32], n: usize, b: &[u32], m: usize) -> bool
    requires { (n ≤ max_rows) × (length a.now ≡ place_size) × (length b.now ≡ place_size) }
    ensures { (w : ℕ) → Place w a.now n → Place w b.now m →
        result ≡ same_rows (relation_in w a.now n) (relation_in w b.now m) }
{
    if n != m {
        return false;
    }
    words::same_words(a, b, n * STRIDE)
}
