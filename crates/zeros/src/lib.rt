// Whether words are 0: two fields are taken as one 64-bit word at a time, a field left over by itself. Bits are
// gathered with no test in between, so that the compiler can take several such words at once.

#![tactic(auto)]

ghost use Rattle.std.specs.Prelude.{◌≡◌, ◌+◌, ◌≤◌, length};
ghost use Rattle.std.proofs.Math.Seq.{slice};
ghost use Rattle.model.specs.Areas.{all_zero};
ghost use Rattle.zeros.specs.Zeros.{turn, pair_at, Tells, Gathers};

// How many values a word has.
const WORD: u64 = 4294967296;

// How many words are taken in a turn.
const TURN: usize = 128;

// The bits of every other pair, and of the pairs between them: two 64-bit words, side by side in one register.
#[derive(Clone, Copy)]
struct Bits {
    even: u64,
    odd: u64,
}

// The two fields from index k on as one 64-bit word, the first in its low half, as they stand in memory.
pub fn pair(words: &[u32], k: usize) -> u64
    requires { k + 2 ≤ length words.now }
    ensures { result ≡ pair_at words.now k }
{
    u64::from(words[k]) + u64::from(words[k + 1]) * WORD
}

// The bits of 2 pairs gathered beside others.
fn two_pairs(words: &[u32], k: usize, bits: Bits) -> Bits
    requires { k + 4 ≤ length words.now }
    ensures { Gathers bits (slice k (k + 4) words.now) result }
{
    Bits {
        even: bits.even | pair(words, k),
        odd: bits.odd | pair(words, k + 2),
    }
}

// The bits of 8 pairs gathered beside others.
fn eight_pairs(words: &[u32], k: usize, mut bits: Bits) -> Bits
    requires { k + 16 ≤ length words.now }
    ensures { Gathers bits (slice k (k + 16) words.now) result }
{
    for i in 0..4 {
        bits = two_pairs(words, k + 4 * i, bits);
    }
    bits
}

// The bits of 64 pairs, a turn's words, gathered beside others.
fn gather_turn(words: &[u32], k: usize, mut bits: Bits) -> Bits
    requires { k + turn ≤ length words.now }
    ensures { Gathers bits (slice k (k + turn) words.now) result }
{
    for i in 0..8 {
        bits = eight_pairs(words, k + 16 * i, bits);
    }
    bits
}

// The bits of a run, pair by pair, and of a field left over.
fn gather_pairs(words: &[u32], from: usize, to: usize) -> u64
    requires { (from ≤ to) × (to ≤ length words.now) }
    ensures { Tells result (slice from to words.now) }
{
    let mut bits = 0u64;
    for i in 0..(to - from) / 2 {
        bits |= pair(words, from + 2 * i);
    }
    if (to - from) % 2 == 1 {
        bits |= u64::from(words[to - 1]);
    }
    bits
}

// Whether the words from index from up to index to are all 0.
pub fn all_zero(words: &[u32], from: usize, to: usize) -> bool
    requires { (from ≤ to) × (to ≤ length words.now) }
    ensures { result ≡ all_zero (slice from to words.now) }
{
    let mut bits = Bits { even: 0, odd: 0 };
    let mut k = from;
    // A `for` over the turns takes up to 10 instructions more for a short run, of which a check has many.
    while TURN <= to - k {
        bits = gather_turn(words, k, bits);
        k += TURN;
    }
    (bits.even | bits.odd | gather_pairs(words, k, to)) == 0
}
