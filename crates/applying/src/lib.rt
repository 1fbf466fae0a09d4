// A batch applied: refusals 1 to 14, or the next state.

#![tactic(auto)]

ghost use Rattle.model.specs.Calls.{Applied};
ghost use Rattle.network.specs.Reading.{result_with};
ghost use Rattle.areas.specs.Lent.{lent};

use verdicts::Verdict;

// Applies a batch: refusals 1 to 14, or the next state.
pub fn apply(
    net: &[u8],
    batch: &[u8],
    rows: &mut [u32],
    gained: &mut [u32],
    lost: &mut [u32],
    head: &mut [u32],
) -> Verdict
    ensures applies { Applied net.now batch.now
        (lent rows.old gained.old lost.old head.old)
        (result_with result (lent rows.new gained.new lost.new head.new)) }
{
    let network = admission::read_areas(net, rows, gained, lost, head)?;
    batch::apply_batch(network, batch, rows, gained, lost, head)
}
