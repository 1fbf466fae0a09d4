// Two places of rows compared once: the numbers of the rows that came and of those that went, and rows copied by them.

#![tactic(auto)]

ghost use Rattle.std.specs.Prelude.{◌≡◌, true, ◌+◌, ◌*◌, ◌≤◌, length, take, drop};
ghost use Rattle.std.proofs.Math.Seq.{paste};
ghost use Rattle.std.proofs.lemmas.List.Edits.{sets};
ghost use Rattle.model.specs.Row.{ascending, count_from, max_rows};
ghost use Rattle.model.specs.Areas.{stride};
ghost use Rattle.rows.specs.Rows.{first_rows, words};
ghost use Rattle.differences.specs.Differences.{chosen, picks_size, Compares, Within};

use rows::{MAX_ROWS, STRIDE};
use std::cmp::Ordering;

// How many rows a node gained and lost.
#[derive(Clone, Copy)]
pub struct Sizes {
    pub gained: usize,
    pub lost: usize,
}

// How many numbers of rows two places can have that came or went.
pub const PICKS: usize = 2 * MAX_ROWS;

// The numbers from one on, count of them, written as bytes from index at on.
fn put_numbers(out: &mut [u8], at: usize, from: usize, count: usize)
    requires { (from + count ≤ max_rows) × (at + count ≤ length out.old) }
    ensures { out.new ≡ sets out.old at (count_from from count) }
{
    for k in 0..count {
        out[at + k] = (from + k) as u8;
    }
}

// Which rows stand in one of two places alone: the numbers of the new rows that came, then, from a place's rows on,
// those of the old rows that went.
pub fn compare_places(old: &[u32], m: usize, new: &[u32], n: usize, picks: &mut [u8]) -> Sizes
    requires { (n ≤ max_rows) × (m ≤ max_rows) × (n * stride ≤ length new.now) × (m * stride ≤ length old.now)
        × (ascending (first_rows new.now n) ≡ true) × (ascending (first_rows old.now m) ≡ true)
        × (length picks.old ≡ picks_size) }
    ensures { Compares old.now m new.now n picks.new result }
{
    let mut gained = 0;
    let mut lost = 0;
    let mut i = 0;
    let mut j = 0;
    // Not a `for`: the outcome says which of the two indices moves on.
    while j < n {
        match merges::compare_first(new, j, old, m, i) {
            Ordering::Less => {
                picks[gained] = j as u8;
                gained += 1;
                j += 1;
            }
            Ordering::Equal => {
                i += 1;
                j += 1;
            }
            Ordering::Greater => {
                picks[MAX_ROWS + lost] = i as u8;
                lost += 1;
                i += 1;
            }
        }
    }
    let rest = m - i;
    put_numbers(picks, MAX_ROWS + lost, i, rest);
    Sizes {
        gained,
        lost: lost + rest,
    }
}

// Rows of src by count numbers from an index on, written to dst from index at on.
pub fn copy_picked(src: &[u32], picks: &[u8], from: usize, count: usize, dst: &mut [u32], at: usize)
    requires { (from + count ≤ length picks.now) × Within src.now (take count (drop from picks.now))
        × (at + count * stride ≤ length dst.old) }
    ensures { dst.new ≡ paste dst.old at
        (words (chosen src.now (take count (drop from picks.now)))) (count * stride) }
{
    for k in 0..count {
        let row = picks[from + k] as usize;
        words::copy_run(src, row * STRIDE, dst, at + k * STRIDE, STRIDE);
    }
}
