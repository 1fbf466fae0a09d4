// Rows of good form: strictly ascending, with zeros past the width.

#![tactic(auto)]

ghost use Rattle.std.specs.Prelude.{◌≡◌, ◌&&◌, ◌+◌, ◌*◌, ◌<◌, ◌≤◌, length};
ghost use Rattle.model.specs.Row.{order, is_less, ascending};
ghost use Rattle.model.specs.Areas.{stride};
ghost use Rattle.rows.specs.Rows.{row_at, first_rows};
ghost use Rattle.row_checks.specs.RowChecks.{zero_field, zero_past, good_rows};

use rows::STRIDE;

// Whether row j is below the row after it.
fn below_next(words: &[u32], j: usize) -> bool
    requires { (j + 1) * stride + stride ≤ length words.now }
    ensures { result ≡ is_less (order (row_at stride words.now j)
        (row_at stride words.now (j + 1))) }
{
    rows::compare_rows(words, j, words, j + 1).is_lt()
}

// Whether the first n rows strictly ascend.
fn ascend(words: &[u32], n: usize) -> bool
    requires { n * stride ≤ length words.now }
    ensures { result ≡ ascending (first_rows words.now n) }
{
    for j in 1..n {
        if !below_next(words, j - 1) {
            return false;
        }
    }
    true
}

// Whether field c is 0 in each of the first n rows: their bits are gathered, with no test at each row.
pub fn zero_field(words: &[u32], n: usize, c: usize) -> bool
    requires { (n * stride ≤ length words.now) × (c < stride) }
    ensures { result ≡ zero_field c (first_rows words.now n) }
{
    let mut bits = 0u32;
    for j in 0..n {
        bits |= words[j * STRIDE + c];
    }
    bits == 0
}

// Whether fields c and c + 1 are 0 in each of the first n rows: the two are taken as one 64-bit word.
fn zero_pair(words: &[u32], n: usize, c: usize) -> bool
    requires { (n * stride ≤ length words.now) × (c + 2 ≤ stride) }
    ensures { result ≡ (zero_field c (first_rows words.now n)
        && zero_field (c + 1) (first_rows words.now n)) }
{
    let mut pairs = 0u64;
    for j in 0..n {
        pairs |= zeros::pair(words, j * STRIDE + c);
    }
    pairs == 0
}

// Whether the first n rows have zeros past the width: two fields at a time, down all rows, a field left over by itself.
fn zero_past(words: &[u32], n: usize, width: usize) -> bool
    requires { (n * stride ≤ length words.now) × (width ≤ stride) }
    ensures { result ≡ zero_past width (first_rows words.now n) }
{
    for c in (width..STRIDE).step_by(2) {
        let is_zero = if c + 1 < STRIDE {
            zero_pair(words, n, c)
        } else {
            zero_field(words, n, c)
        };
        if !is_zero {
            return false;
        }
    }
    true
}

// Whether the first n rows strictly ascend, with zeros past the width.
pub fn good_rows(words: &[u32], n: usize, width: usize) -> bool
    requires { (n * stride ≤ length words.now) × (width ≤ stride) }
    ensures { result ≡ good_rows width (first_rows words.now n) }
{
    if !zero_past(words, n, width) {
        return false;
    }
    ascend(words, n)
}
