// A batch on areas of good form: refusals 9 to 14, or the next state.

#![tactic(auto)]

ghost use Rattle.areas.specs.Lent.{lent};
ghost use Rattle.network.specs.Reading.{result_with};
ghost use Rattle.batch.specs.Applying.{Applicable, AppliedTo, Unrefused};

use areas::AREA;
use differences::PICKS;
use network::Network;
use new_rows::Work;
use rows::MAX_NODES;
use verdicts::{Rule, Verdict};
use working::Told;

// The largest batch number.
const LAST: u32 = 4294967295;

// The nodes worked and written: refusal 14, or the next state. The areas are written once nothing can be refused any
// more.
fn advance(
    net: Network,
    bytes: &[u8],
    rows: &mut [u32],
    gained: &mut [u32],
    lost: &mut [u32],
    head: &mut [u32],
) -> Verdict
    requires { Applicable net (lent rows.old gained.old lost.old head.old)
        × Unrefused net bytes.now head.old }
    ensures { AppliedTo net bytes.now
        (lent rows.old gained.old lost.old head.old)
        (result_with result (lent rows.new gained.new lost.new head.new)) }
{
    let mut work = Work {
        rows: [0; AREA],
        counts: [0; MAX_NODES],
        changed: [false; MAX_NODES],
    };
    let mut due = named_tables::named_nodes(bytes);
    let mut told = Told {
        picks: [0; MAX_NODES * PICKS],
        sizes: [0; 2 * MAX_NODES],
    };
    propagation::propagate(net, bytes, rows, head, &mut work, &mut due, &mut told)?;
    let levels = net.levels;
    transition::write_state(
        net.count, &levels, &work, &due, &told, rows, gained, lost, head,
    );
    Ok(())
}

// A batch applied to areas of good form: refusals 9 to 14, or the next state.
pub fn apply_batch(
    net: Network,
    bytes: &[u8],
    rows: &mut [u32],
    gained: &mut [u32],
    lost: &mut [u32],
    head: &mut [u32],
) -> Verdict
    requires { Applicable net (lent rows.old gained.old lost.old head.old) }
    ensures applies { AppliedTo net bytes.now
        (lent rows.old gained.old lost.old head.old)
        (result_with result (lent rows.new gained.new lost.new head.new)) }
{
    if head[0] == LAST {
        return Err(Rule::LastBatch.at(0));
    }
    let widths = net.widths;
    let levels = net.levels;
    events::read_batch(net.count, &widths, &levels, bytes)?;
    advance(net, bytes, rows, gained, lost, head)
}
