// Answers for C: a verdict and a value in 64 bits, and the reader's answer in words.

#![tactic(auto)]

ghost use Rattle.std.specs.Prelude.{◌≡◌, ◌++◌, ◌+◌, ◌≤◌, ◌<◌, length, drop, Ok};
ghost use Rattle.std.proofs.lemmas.List.Edits.{sets};
ghost use Rattle.model.specs.Record.{refused, SmallVerdict};
ghost use Rattle.verdicts.specs.Verdicts.{verdict_of};
ghost use Rattle.reader.specs.Answer.{answer_of};
ghost use Rattle.packing.specs.Packing.{half, Answers, FitWords, ReadFits, read_words, value_of};

use reader::Answer;
use verdicts::Refusal;

// The number in the upper 32 bits; below it the value, or beside a refusal the place.
pub fn pack(number: usize, place: usize, value: usize) -> u64
    requires { SmallVerdict (refused number place) × (value < half) }
    ensures { Answers (refused number place) value result }
{
    if number == 0 {
        value as u64
    } else {
        (number * 4294967296 + place) as u64
    }
}

// An answer's value, or its refusal's number above its place.
pub fn pack_answer(answer: Result<usize, Refusal>) -> u64
    requires { SmallVerdict (verdict_of answer) × (value_of answer < half) }
    ensures { Answers (verdict_of answer) (value_of answer) result }
{
    match answer {
        Ok(value) => pack(0, 0, value),
        Err(refusal) => pack(refusal.rule.number(), refusal.place, 0),
    }
}

// Numbers written as words, from an index on.
fn write_list(answer: &mut [u32], at: usize, list: &[usize])
    requires { (at + length list.now ≤ length answer.old) × FitWords list.now }
    ensures { answer.new ≡ sets answer.old at list.now }
{
    for (k, number) in list.iter().enumerate() {
        answer[at + k] = *number as u32;
    }
}

// The reader's answer in its 97 words: the count, then the kinds, widths and levels.
pub fn write_answer(answer: &mut [u32], read: Answer)
    requires { (97 ≤ length answer.old) × ReadFits (answer_of (Ok read)) }
    ensures { answer.new ≡ read_words (answer_of (Ok read)) ++ drop 97 answer.old }
{
    let first = [read.count];
    let kinds = read.kinds;
    let widths = read.widths;
    let levels = read.levels;
    write_list(answer, 0, &first);
    write_list(answer, 1, &kinds);
    write_list(answer, 33, &widths);
    write_list(answer, 65, &levels);
}
