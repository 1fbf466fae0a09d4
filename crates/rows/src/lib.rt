// Relations as rows of words in a slice. A place for a relation is lent as a part of its area, so that nothing outside
// it can be touched.

#![tactic(auto)]

ghost use Rattle.std.specs.Prelude.{◌≡◌, true, ◌+◌, ◌*◌, ◌≤◌, length};
ghost use Rattle.model.specs.Row.{order, ascending};
ghost use Rattle.model.specs.Areas.{stride};
ghost use Rattle.rows.specs.Rows.{Paired, row_at, first_rows, order_of, locate};

use std::cmp::Ordering;

// How many words a row takes.
pub const STRIDE: usize = 4;

// How many pairs of words a row has, and what a word counts up to.
const PAIRS: usize = STRIDE / 2;

const WORD: u64 = 4294967296;

// The most fields of a row, rows of a relation and nodes of a network.
pub const MAX_WIDTH: usize = 4;

pub const MAX_ROWS: usize = 64;

pub const MAX_NODES: usize = 32;

// The two words from index i on, as one number.
fn pair(words: &[u32], i: usize) -> u64
    requires { i + 2 ≤ length words.now }
    ensures { Paired words.now i result }
{
    // Not zeros::pair: here the first word is the higher half, which decides; there the lower, as it stands in memory.
    u64::from(words[i]) * WORD + u64::from(words[i + 1])
}

// How row i of a compares with row j of b, two words at a time.
pub fn compare_rows(a: &[u32], i: usize, b: &[u32], j: usize) -> Ordering
    requires { (i * stride + stride ≤ length a.now) × (j * stride + stride ≤ length b.now) }
    ensures { order_of result ≡ order (row_at stride a.now i) (row_at stride b.now j) }
{
    // `cmp` on slices branches at each word: measured, 8 instructions more to 5 fewer a row, and more that go either way.
    // `cmp` of a pair, after `!=`, takes 2 to 3 instructions more in each step of a search.
    for k in 0..PAIRS {
        let x = pair(a, i * STRIDE + 2 * k);
        let y = pair(b, j * STRIDE + 2 * k);
        if x < y {
            return Ordering::Less;
        }
        if y < x {
            return Ordering::Greater;
        }
    }
    Ordering::Equal
}

// Where row at of src stands among the first n rows, which ascend (Ok), or where it belongs (Err).
pub fn find(words: &[u32], n: usize, src: &[u32], at: usize) -> Result<usize, usize>
    requires { (n * stride ≤ length words.now) × (at * stride + stride ≤ length src.now)
        × (ascending (first_rows words.now n) ≡ true) }
    ensures { result ≡ locate (row_at stride src.now at) (first_rows words.now n) }
{
    // binary_search_by over as_chunks goes on past an equal row: measured, a third more for a hit among 64 rows.
    let mut low = 0;
    let mut high = n;
    while low < high {
        let mid = low + (high - low) / 2;
        match compare_rows(src, at, words, mid) {
            Ordering::Less => {
                high = mid;
            }
            Ordering::Equal => {
                return Ok(mid);
            }
            Ordering::Greater => {
                low = mid + 1;
            }
        }
    }
    Err(low)
}
