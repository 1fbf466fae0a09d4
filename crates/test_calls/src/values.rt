// Lines of bytes and words, and the bytes that are lent for a report.
ghost use Rattle.std.specs.Prelude.{◌≡◌, [], ◌∷◌, ◌++◌, ◌+◌, ◌*◌, ◌≤◌, ◌<◌, length, get_or, replicate, take, drop};
ghost use Rattle.std.proofs.lemmas.List.Edits.{sets};
ghost use Rattle.model.specs.Record.{Bytes};
ghost use Rattle.model.specs.Text.{line};
ghost use Rattle.reporting.specs.Answer.{report_answer_of};
ghost use Rattle.verdicts.specs.Verdicts.{verdict_of};
ghost use Rattle.lines.specs.Written.{PutLine};
ghost use Rattle.model.specs.Calls.{longest_report};
ghost use Rattle.test_calls.specs.Lines.{Writes, report_line, verdict_line};
ghost use Rattle.test_calls.specs.Operations.{room_of};

use rows::{MAX_ROWS, MAX_WIDTH};
use verdicts::{Refusal, Verdict};

// The most numbers of a line: a report's bytes.
pub(crate) const VALUES: usize = 2 * MAX_ROWS * (6 + 4 * MAX_WIDTH);

// The bytes of a buffer for what is printed.
pub(crate) const TEXT: usize = 65536;

// The bytes that are lent for a report: as many as asked for, if there are so many.
pub(crate) fn room(asked: u32) -> usize
    ensures size { result ≡ room_of asked }
    ensures inside { result ≤ longest_report }
{
    (asked as usize).min(VALUES)
}

// One of some bytes and then some words.
fn value_at(bytes: &[u8], words: &[u32], k: usize) -> usize
    requires { k < length bytes.now + length words.now }
    ensures { result ≡ get_or (bytes.now ++ words.now) k 0 }
{
    let n = bytes.len();
    if k < n {
        bytes[k] as usize
    } else {
        words[k - n] as usize
    }
}

// Bytes, then words, as numbers.
fn values(bytes: &[u8], words: &[u32], numbers: &mut [usize])
    requires { length bytes.now + length words.now ≤ length numbers.old }
    ensures { numbers.new ≡ sets numbers.old 0 (bytes.now ++ words.now) }
{
    for k in 0..bytes.len() + words.len() {
        numbers[k] = value_at(bytes, words, k);
    }
}

// A line of bytes, then words, from an offset on: where the bytes after it begin.
pub(crate) fn values_line(
    text: &mut [u8],
    at: usize,
    word: &[u8],
    bytes: &[u8],
    words: &[u32],
) -> usize
    requires { (length bytes.now + length words.now ≤ longest_report)
        × (at + length word.now + 21 * (length bytes.now + length words.now) < length text.old) }
    ensures { PutLine (line word.now (bytes.now ++ words.now)) word.now
        (length bytes.now + length words.now) at text.old text.new result }
{
    let size = bytes.len() + words.len();
    let mut numbers = [0usize; VALUES];
    values(bytes, words, &mut numbers);
    lines::put_line_at(text, at, word, &numbers[..size])
}

// The line of a verdict.
pub(crate) fn verdict_line(text: &mut [u8; TEXT], v: Verdict) -> usize
    ensures { Writes (verdict_line (verdict_of v)) text.old text.new result }
{
    let number = verdicts::number_of(&v);
    let place = verdicts::place_of(&v);
    lines::put_line(text, b"", &[number, place])
}

// The line of a report's verdict and size.
pub(crate) fn answer_line(text: &mut [u8; TEXT], v: Result<usize, Refusal>) -> usize
    ensures { (out : Bytes) → Writes (report_line (report_answer_of v out))
        text.old text.new result }
{
    let number = verdicts::number_of(&v);
    let place = verdicts::place_of(&v);
    lines::put_line(text, b"", &[number, place, v.unwrap_or(0)])
}

// Bytes copied to the start of others: how many.
pub(crate) fn copy(from: &[u8], to: &mut [u8]) -> usize
    requires { length from.now ≤ length to.old }
    ensures count { result ≡ length from.now }
    ensures bytes { to.new ≡ take (length from.now) from.now ++ drop (length from.now) to.old }
{
    let n = from.len();
    to[..n].copy_from_slice(from);
    n
}

// The bytes that are lent for a report set to 0: nothing is printed.
pub(crate) fn clear(out: &mut [u8]) -> usize
    requires { length out.old ≡ longest_report }
    ensures cleared { out.new ≡ replicate longest_report 0 }
    ensures nothing { result ≡ 0 }
{
    let none = [0u8; VALUES];
    copy(&none, out);
    0
}
