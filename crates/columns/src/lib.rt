// Rows made of columns of rows: what projections and joins make their rows with.

#![tactic(auto)]

ghost use Rattle.std.specs.Prelude.{◌≡◌, true, ◌+◌, ◌*◌, ◌≤◌, length, take};
ghost use Rattle.model.specs.Row.{max_width};
ghost use Rattle.model.specs.Network.{columns_below};
ghost use Rattle.model.specs.Areas.{stride};
ghost use Rattle.rows.specs.Rows.{row_at};
ghost use Rattle.columns.specs.Columns.{joined_row};

use rows::STRIDE;

// The first n of some columns of row i of the left place followed by row j of the right one, then zeros.
pub fn columns_row(
    left: &[u32],
    i: usize,
    right: &[u32],
    j: usize,
    split: usize,
    columns: &[u16],
    n: usize,
) -> [u32; STRIDE]
    requires { (i * stride + stride ≤ length left.now) × (j * stride + stride ≤ length right.now)
        × (split ≤ stride) × (n ≤ max_width) × (n ≤ length columns.now)
        × (columns_below (split + stride) (take n columns.now) ≡ true) }
    ensures { result ≡ joined_row split (take n columns.now) (row_at stride left.now i)
        (row_at stride right.now j) }
{
    let mut both = [0u32; 2 * STRIDE];
    words::copy_run(left, i * STRIDE, &mut both, 0, STRIDE);
    words::copy_run(right, j * STRIDE, &mut both, split, STRIDE);
    let mut row = [0u32; STRIDE];
    for k in 0..n {
        row[k] = both[columns[k] as usize];
    }
    row
}
