// The C interface: each function is one call of the monitor.

#![tactic(auto)]

ghost use Rattle.std.specs.Prelude.{◌≡◌};
ghost use Rattle.model.specs.Calls.{open_call, check_call, report_call, fold_call};
ghost use Rattle.areas.specs.Lent.{lent};
ghost use Rattle.packing.specs.Packing.{Answers};
ghost use Rattle.bagwezin.specs.Answers.{AnswersCheck, AnswersReport, Applies, read_verdict, read_after};
ghost use Rattle.bagwezin.specs.Answers.{take_lent, row_after};

use rows::STRIDE;
use verdicts::Rule;

// How many words the reader's answer takes.
const WORDS: usize = 97;

// Opens the areas for a network: refusals 1 to 7, or 0.
#[unsafe(no_mangle)]
pub extern "C" fn bagwezin_open(
    net: &[u8],
    rows: &mut [u32],
    gained: &mut [u32],
    lost: &mut [u32],
    head: &mut [u32],
) -> u64
    ensures answers { Answers
        (open_call net.now (lent rows.old gained.old lost.old
        head.old)).verdict
        0
        result }
    ensures areas { lent rows.new gained.new lost.new head.new
        ≡ (open_call net.now (lent rows.old gained.old lost.old
        head.old)).areas }
{
    let v = opening::open(net, rows, gained, lost, head);
    packing::pack_answer(v.map(|()| 0))
}

// Applies a batch: refusals 1 to 14, or 0.
#[unsafe(no_mangle)]
pub extern "C" fn bagwezin_apply(
    net: &[u8],
    batch: &[u8],
    rows: &mut [u32],
    gained: &mut [u32],
    lost: &mut [u32],
    head: &mut [u32],
) -> u64
    ensures applies { Applies
        net.now
        batch.now
        (lent rows.old gained.old lost.old head.old)
        (lent rows.new gained.new lost.new head.new)
        result }
{
    let v = applying::apply(net, batch, rows, gained, lost, head);
    packing::pack_answer(v.map(|()| 0))
}

// Whether the areas are coherent: refusals 1 to 8, or 1 for yes and 0 for no.
#[unsafe(no_mangle)]
pub extern "C" fn bagwezin_check(
    net: &[u8],
    rows: &[u32],
    gained: &[u32],
    lost: &[u32],
    head: &[u32],
) -> u64
    ensures answers { AnswersCheck
        (check_call net.now (lent rows.now gained.now lost.now
        head.now))
        result }
{
    let v = checking::check(net, rows, gained, lost, head);
    packing::pack_answer(v.map(|yes| yes as usize))
}

// The report of a node: refusals 1 to 8, 15 and 16, or its length.
#[unsafe(no_mangle)]
pub extern "C" fn bagwezin_report(
    net: &[u8],
    node: u32,
    rows: &[u32],
    gained: &[u32],
    lost: &[u32],
    head: &[u32],
    out: &mut [u8],
) -> u64
    ensures answers { AnswersReport
        (report_call net.now node
        (lent rows.now gained.now lost.now head.now)
        out.old)
        result }
    ensures bytes { out.new
        ≡ (report_call net.now node
        (lent rows.now gained.now lost.now head.now)
        out.old).out }
{
    let v = reporting::report(net, node as usize, rows, gained, lost, head, out);
    packing::pack_answer(v)
}

// Folds the last batch's gained and lost rows into the pending area: refusals 1 to 8 and 17, or 0.
#[unsafe(no_mangle)]
pub extern "C" fn bagwezin_fold(
    net: &[u8],
    rows: &[u32],
    gained: &[u32],
    lost: &[u32],
    head: &[u32],
    pending: &mut [u32],
) -> u64
    ensures answers { Answers
        (fold_call net.now
        (lent rows.now gained.now lost.now head.now)
        pending.old).verdict
        0
        result }
    ensures pending { pending.new
        ≡ (fold_call net.now
        (lent rows.now gained.now lost.now head.now)
        pending.old).pending }
{
    let v = folding::fold(net, rows, gained, lost, head, pending);
    packing::pack_answer(v.map(|()| 0))
}

// Takes the next pending row into 4 words: refusal 1 where they are not lent, then 1 to 8, 17 and 18, or the node.
#[unsafe(no_mangle)]
pub extern "C" fn bagwezin_take(
    net: &[u8],
    rows: &[u32],
    gained: &[u32],
    lost: &[u32],
    head: &[u32],
    pending: &mut [u32],
    answer: &mut [u32],
) -> u64
    ensures answers { Answers
        (take_lent net.now
        (lent rows.now gained.now lost.now head.now)
        pending.old answer.old).verdict
        (take_lent net.now
        (lent rows.now gained.now lost.now head.now)
        pending.old answer.old).node
        result }
    ensures pending { pending.new
        ≡ (take_lent net.now
        (lent rows.now gained.now lost.now head.now)
        pending.old answer.old).pending }
    ensures row { answer.new
        ≡ row_after (take_lent net.now
        (lent rows.now gained.now lost.now head.now)
        pending.old answer.old) answer.old }
{
    if answer.len() < STRIDE {
        return packing::pack_answer(Err(Rule::ShortArea.at(0)));
    }
    match taking::take(net, rows, gained, lost, head, pending) {
        Ok(taken) => {
            let row = taken.row;
            words::copy_run(&row, 0, answer, 0, STRIDE);
            packing::pack_answer(Ok(taken.node))
        }
        Err(refusal) => packing::pack_answer(Err(refusal)),
    }
}

// The reader's answer in 97 words: refusal 1 where they are not lent, then 2 to 7, or 0.
#[unsafe(no_mangle)]
pub extern "C" fn bagwezin_read(net: &[u8], answer: &mut [u32]) -> u64
    ensures answers { Answers (read_verdict net.now answer.old) 0 result }
    ensures words { answer.new ≡ read_after net.now answer.old }
{
    if answer.len() < WORDS {
        return packing::pack_answer(Err(Rule::ShortArea.at(0)));
    }
    match reader::read(net) {
        Ok(read) => {
            packing::write_answer(answer, read);
            packing::pack_answer(Ok(0))
        }
        Err(refused) => packing::pack_answer(Err(refused)),
    }
}
