// A row put among the rows of a relation, and a row taken out of them, in their words.

#![tactic(auto)]

ghost use Rattle.std.specs.Prelude.{◌≡◌, true, ◌++◌, ◌+◌, ◌*◌, ◌-◌, ◌≤◌, length, take, drop};
ghost use Rattle.std.proofs.Math.Seq.{slice};
ghost use Rattle.model.specs.Row.{ascending};
ghost use Rattle.model.specs.Areas.{stride};
ghost use Rattle.rows.specs.Rows.{row_at, first_rows, locate};
ghost use Rattle.insertions.specs.Insertions.{Inserts, Removes};

use rows::STRIDE;
use std::cmp::Ordering;

// Moves the words from index from up to index to one row up.
fn open_gap(words: &mut [u32], from: usize, to: usize)
    requires { (from ≤ to) × (to + stride ≤ length words.old) }
    ensures { words.new
        ≡ take (from + stride) words.old
        ++ (slice from to words.old ++ drop (to + stride) words.old) }
{
    words.copy_within(from..to, from + STRIDE);
}

// Moves the words from one row past index from up to index to one row down.
pub fn close_gap(words: &mut [u32], from: usize, to: usize)
    requires { (from + stride ≤ to) × (to ≤ length words.old) }
    ensures { words.new
        ≡ take from words.old
        ++ (slice (from + stride) to words.old ++ drop (to - stride) words.old) }
{
    words.copy_within(from + STRIDE..to, from);
}

// Where row at of src stands among the first n rows, which ascend, or where it belongs: often behind the last.
fn find_from_end(words: &[u32], n: usize, src: &[u32], at: usize) -> Result<usize, usize>
    requires { (n * stride ≤ length words.now) × (at * stride + stride ≤ length src.now)
        × (ascending (first_rows words.now n) ≡ true) }
    ensures { result ≡ locate (row_at stride src.now at) (first_rows words.now n) }
{
    if n == 0 {
        return Err(0);
    }
    match rows::compare_rows(src, at, words, n - 1) {
        Ordering::Less => rows::find(words, n - 1, src, at),
        Ordering::Equal => Ok(n - 1),
        Ordering::Greater => Err(n),
    }
}

// Row at of src put among the first n rows, which ascend: whether it is new, or None where there is no room for it.
#[inline(always)] // a join calls it in its innermost loop
#[tactic(auto, using(crate::proofs::Edit::missing_within))]
pub fn insert(words: &mut [u32], n: usize, src: &[u32], at: usize, capacity: usize) -> Option<bool>
    requires { (n ≤ capacity) × (capacity * stride ≤ length words.old) × (at * stride + stride ≤ length src.now)
        × (ascending (first_rows words.old n) ≡ true) }
    ensures { Inserts capacity (row_at stride src.now at) (first_rows words.old n)
        words.old
        words.new result }
{
    match find_from_end(words, n, src, at) {
        Ok(_) => Some(false),
        Err(p) => {
            if capacity <= n {
                return None;
            }
            open_gap(words, p * STRIDE, n * STRIDE);
            words::copy_run(src, at * STRIDE, words, p * STRIDE, STRIDE);
            Some(true)
        }
    }
}

// Row at of src taken out of the first n rows, which ascend, and the place that becomes unused cleared: whether it was
// there.
#[tactic(auto, using(crate::proofs::Edit::present_within))]
pub fn remove(words: &mut [u32], n: usize, src: &[u32], at: usize) -> bool
    requires { (n * stride ≤ length words.old) × (at * stride + stride ≤ length src.now)
        × (ascending (first_rows words.old n) ≡ true) }
    ensures { Removes (row_at stride src.now at) (first_rows words.old n)
        words.old words.new result }
{
    match rows::find(words, n, src, at) {
        Err(_) => false,
        Ok(p) => {
            let end = n * STRIDE;
            close_gap(words, p * STRIDE, end);
            words::clear_run(words, end - STRIDE, end);
            true
        }
    }
}
