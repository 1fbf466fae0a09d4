// Lines of text: a word, then numbers, written into lent bytes. There is no heap, so no String that `write!` could fill.

#![tactic(auto)]

ghost use Rattle.std.specs.Prelude.{◌≡◌, ◌+◌, ◌*◌, ◌≤◌, ◌<◌, length};
ghost use Rattle.std.proofs.lemmas.List.Edits.{sets};
ghost use Rattle.model.specs.Text.{decimal, line};
ghost use Rattle.lines.specs.Numbers.{numbers_text};
ghost use Rattle.lines.specs.Written.{Put, PutLine};

// How many digits a number has.
fn digit_count(x: usize) -> usize
    ensures counts { result ≡ length (decimal x) }
    ensures few { result ≤ 20 }
{
    x.checked_ilog10().unwrap_or(0) as usize + 1
}

// A number in decimal, count digits from an offset on.
fn put_digits(out: &mut [u8], at: usize, x: usize, count: usize)
    requires { (at + count ≤ length out.old) × (count ≡ length (decimal x)) × (count ≤ 20) }
    ensures { out.new ≡ sets out.old at (decimal x) }
{
    let mut rest = x;
    for k in (0..count).rev() {
        out[at + k] = b'0' + (rest % 10) as u8;
        rest /= 10;
    }
}

// A number in decimal from an offset on: where the bytes after it begin.
fn put_number(out: &mut [u8], at: usize, x: usize) -> usize
    requires { at + 20 ≤ length out.old }
    ensures { Put (decimal x) 20 at out.old out.new result }
{
    let count = digit_count(x);
    put_digits(out, at, x, count);
    at + count
}

// Some bytes from an offset on: where the bytes after them begin.
fn put_bytes(out: &mut [u8], at: usize, text: &[u8]) -> usize
    requires { at + length text.now ≤ length out.old }
    ensures bytes { out.new ≡ sets out.old at text.now }
    ensures next { result ≡ at + length text.now }
{
    let end = at + text.len();
    out[at..end].copy_from_slice(text);
    end
}

// Numbers, a space before each, from an offset on: where the bytes after them begin.
fn put_numbers(out: &mut [u8], at: usize, numbers: &[usize]) -> usize
    requires { at + 21 * length numbers.now ≤ length out.old }
    ensures { Put (numbers_text numbers.now) (21 * length numbers.now) at
        out.old out.new result }
{
    let mut to = at;
    for x in numbers {
        out[to] = b' ';
        to = put_number(out, to + 1, *x);
    }
    to
}

// A line: a word, then numbers, from an offset on: where the bytes after it begin.
pub fn put_line_at(out: &mut [u8], at: usize, word: &[u8], numbers: &[usize]) -> usize
    requires { at + length word.now + 21 * length numbers.now < length out.old }
    ensures { PutLine (line word.now numbers.now) word.now
        (length numbers.now) at out.old out.new result }
{
    let from = put_bytes(out, at, word);
    let end = put_numbers(out, from, numbers);
    out[end] = b'\n';
    end + 1
}

// A line from the first byte on: its length.
pub fn put_line(out: &mut [u8], word: &[u8], numbers: &[usize]) -> usize
    requires { length word.now + 21 * length numbers.now < length out.old }
    ensures { Put (line word.now numbers.now) (length out.old) 0
        out.old out.new result }
{
    put_line_at(out, 0, word, numbers)
}
