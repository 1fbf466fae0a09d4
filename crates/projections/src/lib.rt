// Projection (kind 4) on places.

#![tactic(auto)]

ghost use Rattle.std.specs.Prelude.{◌≡◌, true, ℕ, ◌*◌, ◌≤◌, length, take};
ghost use Rattle.model.specs.Row.{max_width};
ghost use Rattle.model.specs.Algebra.{project_rows};
ghost use Rattle.model.specs.Network.{columns_below};
ghost use Rattle.model.specs.Areas.{stride};
ghost use Rattle.places.specs.Places.{Place, Blank, relation_in, Makes};

use rows::STRIDE;

// The named columns of a place's rows, in an empty place: how many rows, or None where they are more than 64.
pub fn project_rows(
    input: &[u32],
    n: usize,
    columns: &[u16],
    c: usize,
    out: &mut [u32],
) -> Option<usize>
    requires { (n * stride ≤ length input.now) × (c ≤ max_width) × (c ≤ length columns.now)
        × (columns_below stride (take c columns.now) ≡ true) × Blank out.old }
    ensures { (w : ℕ) → Place w input.now n → columns_below w (take c columns.now) ≡ true →
        Makes (project_rows (take c columns.now) (relation_in w input.now n))
        out.new result }
{
    let zeros = [0u32; STRIDE];
    let mut count = 0;
    for i in 0..n {
        let row = columns::columns_row(input, i, &zeros, 0, STRIDE, columns, c);
        count = places::put_row(out, count, &row, 0)?;
    }
    Some(count)
}
