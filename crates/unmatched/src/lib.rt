// No match (kind 10) on places.

#![tactic(auto)]

ghost use Rattle.std.specs.Prelude.{◌≡◌, true, ℕ, ◌*◌, ◌≤◌, length};
ghost use Rattle.model.specs.Row.{max_rows};
ghost use Rattle.model.specs.Algebra.{unmatched_rows};
ghost use Rattle.model.specs.Areas.{stride};
ghost use Rattle.model.specs.Network.{max_pairs, pairs_below};
ghost use Rattle.nodes.specs.Nodes.{pairs_of};
ghost use Rattle.places.specs.Places.{Place, Blank, Fills, relation_in};

use rows::STRIDE;

// The left place's rows for which no right row agrees on the first p pairs, in an empty place: how many. Rows agree
// where their keys are equal.
pub fn unmatched_rows(
    left: &[u32],
    n: usize,
    right: &[u32],
    m: usize,
    pairs: &[u16],
    p: usize,
    out: &mut [u32],
) -> usize
    requires { (n ≤ max_rows) × (n * stride ≤ length left.now) × (m ≤ max_rows) × (m * stride ≤ length right.now)
        × (2 * p ≤ length pairs.now) × (p ≤ max_pairs) × (pairs_below stride stride (pairs_of p pairs.now) ≡ true)
        × Blank out.old }
    ensures { (v w : ℕ) → Place v left.now n → Place w right.now m →
        pairs_below v w (pairs_of p pairs.now) ≡ true →
        Fills (unmatched_rows (pairs_of p pairs.now) (relation_in v left.now n)
        (relation_in w right.now m)) out.new result }
{
    let keys = keys::keys_of(right, m, pairs, p, 1);
    let mut count = 0;
    // The order asks for nested loops here, with a labelled exit.
    'rows: for i in 0..n {
        let key = keys::key_of(left, i, pairs, p, 0);
        for j in 0..m {
            if keys[j] == key {
                continue 'rows;
            }
        }
        words::copy_run(left, i * STRIDE, out, count * STRIDE, STRIDE);
        count += 1;
    }
    count
}
