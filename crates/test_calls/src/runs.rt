// Calls of the monitor, by an operation's kind, and the lines of a batch.
ghost use Rattle.std.specs.Prelude.{◌≡◌, length};
ghost use Rattle.model.specs.Record.{Bytes};
ghost use Rattle.model.specs.Calls.{longest_report};
ghost use Rattle.network.specs.Reading.{result_with};
ghost use Rattle.areas.specs.Lent.{lent};
ghost use Rattle.checking.specs.Answer.{check_answer_of};
ghost use Rattle.reporting.specs.Answer.{report_answer_of};
ghost use Rattle.test_calls.specs.Lines.{Applies, checked};
ghost use Rattle.test_calls.specs.Operations.{asked_by, opened_by};

use super::script::{Kind, Operation};
use super::values;
use super::values::TEXT;
use areas::{AREA, HEAD};
use verdicts::{Refusal, Verdict};

// The words of an area that is too short.
const SHORT: usize = HEAD - 1;

// Opens, with an area that is too short for two of the kinds.
pub(crate) fn opened(
    net: &[u8],
    kind: Kind,
    rows: &mut [u32; AREA],
    gained: &mut [u32; AREA],
    lost: &mut [u32; AREA],
    head: &mut [u32; HEAD],
) -> Verdict
    ensures { result_with result
        (lent rows.new gained.new lost.new head.new)
        ≡ opened_by kind net.now
        (lent rows.old gained.old lost.old head.old) }
{
    let mut short = [0u32; SHORT];
    match kind {
        Kind::ShortRows => opening::open(net, &mut short, gained, lost, head),
        Kind::ShortHead => opening::open(net, rows, gained, lost, &mut short),
        _ => opening::open(net, rows, gained, lost, head),
    }
}

// The check's answer as a report's: yes is size 1.
fn told(v: Result<bool, Refusal>) -> Result<usize, Refusal>
    ensures { (out : Bytes) → report_answer_of result out ≡ checked (check_answer_of v) out }
{
    Ok(v? as usize)
}

// Checks or makes a report, each also with an area that is too short.
pub(crate) fn asked(
    net: &[u8],
    op: Operation,
    rows: &[u32],
    gained: &[u32],
    lost: &[u32],
    head: &[u32],
    out: &mut [u8],
) -> Result<usize, Refusal>
    requires { length out.old ≡ longest_report }
    ensures { report_answer_of result out.new
        ≡ asked_by op.kind op net.now
        (lent rows.now gained.now lost.now head.now)
        out.old }
{
    let kind = op.kind;
    let node = op.index;
    let size = values::room(op.value);
    let short = [0u32; SHORT];
    match kind {
        Kind::Check => told(checking::check(net, rows, gained, lost, head)),
        Kind::Report => reporting::report(net, node, rows, gained, lost, head, &mut out[..size]),
        Kind::ShortGained => told(checking::check(net, rows, &short, lost, head)),
        _ => reporting::report(net, node, rows, gained, &short, head, out),
    }
}

// A batch: its number and place and whether the areas are then coherent, and the head's words.
pub(crate) fn apply_lines(
    net: &[u8],
    batch: &[u8],
    rows: &mut [u32; AREA],
    gained: &mut [u32; AREA],
    lost: &mut [u32; AREA],
    head: &mut [u32; HEAD],
    text: &mut [u8; TEXT],
) -> usize
    ensures { Applies net.now batch.now
        (lent rows.old gained.old lost.old head.old)
        (lent rows.new gained.new lost.new head.new)
        text.old text.new result }
{
    let v = applying::apply(net, batch, rows, gained, lost, head);
    let c = checking::check(net, rows, gained, lost, head);
    let numbers = [
        verdicts::number_of(&v),
        verdicts::place_of(&v),
        verdicts::number_of(&c),
        c.unwrap_or(false) as usize,
    ];
    let k = lines::put_line_at(text, 0, b" apply", &numbers);
    values::values_line(text, k, b" head", &[], head)
}
