// Runs a script of calls from standard input and prints what each operation gave.

#![tactic(auto)]

mod runs;
mod script;
mod values;

ghost use Rattle.std.specs.Prelude.{◌≡◌, ◌≤◌, length};
ghost use Rattle.model.specs.Calls.{longest_report};
ghost use Rattle.areas.specs.Lent.{lent};
ghost use Rattle.test_calls.specs.Operations.{Runs, stored};

use areas::{AREA, HEAD};
use script::{Area, Kind, Operation};
use values::{TEXT, VALUES};

// Standard output's number.
const STDOUT: i32 = 1;

// A word of an area set, if it is there: nothing is printed.
fn store_word(
    op: Operation,
    rows: &mut [u32; AREA],
    gained: &mut [u32; AREA],
    lost: &mut [u32; AREA],
    head: &mut [u32; HEAD],
) -> usize
    ensures word { lent rows.new gained.new lost.new head.new
        ≡ stored op.area op.index op.value
        (lent rows.old gained.old lost.old head.old) }
    ensures nothing { result ≡ 0 }
{
    match op.area {
        Area::Rows => script::store(rows, op.index, op.value),
        Area::Gained => script::store(gained, op.index, op.value),
        Area::Lost => script::store(lost, op.index, op.value),
        Area::Head => script::store(head, op.index, op.value),
    }
}

// An operation with the network and its own text: what it prints is written from the first byte on.
fn run(
    net: &[u8],
    part: &[u8],
    op: Operation,
    rows: &mut [u32; AREA],
    gained: &mut [u32; AREA],
    lost: &mut [u32; AREA],
    head: &mut [u32; HEAD],
    out: &mut [u8],
    text: &mut [u8; TEXT],
) -> usize
    requires { (length part.now ≤ 65536) × (length out.old ≡ longest_report) }
    ensures { Runs op.kind op net.now part.now
        (lent rows.old gained.old lost.old head.old)
        (lent rows.new gained.new lost.new head.new)
        out.old out.new text.old text.new result }
{
    match op.kind {
        Kind::Name => values::copy(part, text),
        Kind::Network => 0,
        Kind::Word => store_word(op, rows, gained, lost, head),
        Kind::Open | Kind::ShortRows | Kind::ShortHead => {
            let v = runs::opened(net, op.kind, rows, gained, lost, head);
            values::verdict_line(text, v)
        }
        Kind::Check | Kind::Report | Kind::ShortGained | Kind::ShortLost => {
            let v = runs::asked(net, op, rows, gained, lost, head, out);
            values::answer_line(text, v)
        }
        Kind::Values => values::values_line(text, 0, b"bytes", &out[..values::room(op.value)], &[]),
        Kind::Batch => runs::apply_lines(net, part, rows, gained, lost, head, text),
        Kind::Clear => values::clear(out),
    }
}

// The operations in turn, each with the last network before it.
fn main() {
    let mut input = io::large_buffer();
    let n = io::read_full(0, &mut input);
    let mut text = io::large_buffer();
    let mut out = [0u8; VALUES];
    let mut rows = [0u32; AREA];
    let mut gained = [0u32; AREA];
    let mut lost = [0u32; AREA];
    let mut head = [0u32; HEAD];
    let mut from = 0;
    let mut to = 0;
    let mut at = 0;
    while at < n {
        let all = &input[..n];
        let op = script::operation_at(all, at);
        let start = op.from;
        at = op.next;
        if op.kind == Kind::Network {
            from = start;
            to = at;
        }
        let k = run(
            &all[from..to],
            &all[start..at],
            op,
            &mut rows,
            &mut gained,
            &mut lost,
            &mut head,
            &mut out,
            &mut text,
        );
        io::write_all(STDOUT, &text[..k]);
    }
}
