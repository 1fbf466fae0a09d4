// Reads networks from standard input and prints what the reader answers of each: a refusal's number and place, or 0 and
// 0, the node count, and every node's kind, width and level, 0 past the last. A case is a byte (the length of its
// name), 2 bytes (the length of the network), the name, the network.

#![tactic(auto)]

ghost use Rattle.std.specs.Prelude.{◌≡◌, ◌+◌, ◌<◌, length};
ghost use Rattle.model.specs.Row.{max_nodes};
ghost use Rattle.model.specs.Calls.{read_call};
ghost use Rattle.model.specs.Text.{line};
ghost use Rattle.lines.specs.Written.{Put, PutLine};
ghost use Rattle.test_networks.specs.Cases.{ReadsCase, answer_lines};

use reader::Answer;
use rows::MAX_NODES;

// Standard output's number.
const STDOUT: i32 = 1;

// What is told beside a refusal.
const NOTHING: Answer = Answer {
    count: 0,
    kinds: [0; MAX_NODES],
    widths: [0; MAX_NODES],
    levels: [0; MAX_NODES],
};

// Where a case's name and its network begin, and where the next case does.
#[derive(Clone, Copy)]
pub struct Case {
    pub name: usize,
    pub net: usize,
    pub next: usize,
}

// The case at an offset; one without a name and a network where the bytes end before it does.
fn case_at(bytes: &[u8], at: usize) -> Case
    requires { at < length bytes.now }
    ensures { ReadsCase bytes.now at result }
{
    let end = bytes.len();
    let none = Case {
        name: end,
        net: end,
        next: end,
    };
    if end - at < 3 {
        return none;
    }
    let name = at + 3;
    let net = name + bytes[at] as usize;
    let next = net + records::u16_at(bytes, at + 1);
    if end < next {
        return none;
    }
    Case { name, net, next }
}

// A line of a word and 32 numbers from an offset on: where the bytes after it begin.
fn put_list(text: &mut [u8], at: usize, word: &[u8], list: [usize; MAX_NODES]) -> usize
    requires { at + length word.now + 672 < length text.old }
    ensures { PutLine (line word.now list) word.now max_nodes at
        text.old text.new result }
{
    lines::put_line_at(text, at, word, &list)
}

// What the reader answers of a network, in four lines from the first byte on: their length.
fn answer_lines(net: &[u8], text: &mut [u8]) -> usize
    requires { length text.old ≡ 4096 }
    ensures { Put (answer_lines (read_call net.now)) 4096 0 text.old text.new result }
{
    let answer = reader::read(net);
    let number = verdicts::number_of(&answer);
    let place = verdicts::place_of(&answer);
    let told = answer.unwrap_or(NOTHING);
    let a = lines::put_line_at(text, 0, b"", &[number, place, told.count]);
    let b = put_list(text, a, b" kinds", told.kinds);
    let c = put_list(text, b, b" widths", told.widths);
    put_list(text, c, b" levels", told.levels)
}

// The cases in turn: a case's name, then what the reader answers of its network.
fn main() {
    let mut input = io::large_buffer();
    let n = io::read_full(0, &mut input);
    let mut text = io::buffer();
    let mut at = 0;
    while at < n {
        let case = case_at(&input[..n], at);
        at = case.next;
        let name = case.name;
        let net = case.net;
        io::write_all(STDOUT, &input[name..net]);
        let k = answer_lines(&input[net..at], &mut text);
        io::write_all(STDOUT, &text[..k]);
    }
}
