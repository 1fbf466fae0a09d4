// The nodes' rows after a batch: tables by their events, derived nodes in number order from the nodes before them.

#![tactic(auto)]

ghost use Rattle.new_rows.specs.Working.{working_in};
ghost use Rattle.working.specs.Worked.{told_in};
ghost use Rattle.propagation.specs.Propagated.{new_rows, Propagatable, Unworked, Propagates};

use network::Network;
use new_rows::Work;
use verdicts::{Rule, Verdict};
use working::Told;

// Every node's new rows and its change, worked in number order into working memory in which no node is worked yet, or
// refusal 14, which names the lowest node with more than 64 rows.
pub fn propagate(
    net: Network,
    bytes: &[u8],
    rows: &[u32],
    head: &[u32],
    work: &mut Work,
    due: &mut [bool],
    told: &mut Told,
) -> Verdict
    requires { Propagatable net rows.now head.now bytes.now
        × Unworked bytes.now work.old.rows work.old.counts work.old.changed due.old told.old.picks told.old.sizes }
    ensures propagates { Propagates head.now
        (new_rows net rows.now head.now bytes.now) net
        (working_in net.widths rows.now work.new) (told_in told.new) due.new result }
{
    let count = net.count;
    for i in 0..count {
        let slot = net.slots[i];
        let level = net.levels[i];
        working::work_node(
            slot,
            level,
            i,
            bytes,
            &net.widths,
            rows,
            head,
            work,
            due,
            told,
        )
        .ok_or(Rule::TooManyRows.at(i))?;
    }
    Ok(())
}
