// A report: refusals 1 to 8, 15 and 16, or the gained and lost rows of a watched node in bytes.

#![tactic(auto)]

ghost use Rattle.std.specs.Prelude.{◌≡◌, [], ◌≤◌, length, get_or, take};
ghost use Rattle.model.specs.Calls.{report_call, report_in};
ghost use Rattle.network.specs.Reading.{Built, network_of};
ghost use Rattle.areas.specs.Lent.{lent};
ghost use Rattle.admission.specs.Admission.{Changes};
ghost use Rattle.reporting.specs.Answer.{report_answer_of};

use areas::{GAINED_COUNTS, LOST_COUNTS};
use network::Network;
use verdicts::{Refusal, Rule};

// The sign of a node's watch: 0 if it has none, or if there is no such node.
fn sign_of(count: usize, signs: &[u8], node: usize) -> usize
    requires { count ≤ length signs.now }
    ensures { result ≡ get_or (take count signs.now) node 0 }
{
    if node < count {
        signs[node] as usize
    } else {
        0
    }
}

// The report of a node of a network for whose areas 1 to 8 hold: refusals 15 and 16, or its bytes.
fn report_node(
    network: Network,
    node: usize,
    gained: &[u32],
    lost: &[u32],
    head: &[u32],
    out: &mut [u8],
) -> Result<usize, Refusal>
    requires { Built network × Changes network gained.now lost.now head.now }
    ensures { report_answer_of result out.new
        ≡ report_in (network_of network) node (lent [] gained.now lost.now head.now)
        out.old }
{
    let sign = sign_of(network.count, &network.signs, node);
    if sign == 0 {
        return Err(Rule::Unwatched.at(0));
    }
    let w = network.widths[node];
    let g = head[GAINED_COUNTS + node] as usize;
    let l = head[LOST_COUNTS + node] as usize;
    let size = reports::report_size(sign, w, g, l);
    if out.len() < size {
        return Err(Rule::ShortReport.at(0));
    }
    reports::put_report(out, sign, node, w, gained, g, lost, l);
    Ok(size)
}

// The report of a watched node: refusals 1 to 8, 15 and 16, or its bytes from the first lent one on. A refusal writes
// nothing.
pub fn report(
    net: &[u8],
    node: usize,
    rows: &[u32],
    gained: &[u32],
    lost: &[u32],
    head: &[u32],
    out: &mut [u8],
) -> Result<usize, Refusal>
    ensures reports { report_answer_of result out.new
        ≡ report_call net.now node
        (lent rows.now gained.now lost.now head.now)
        out.old }
{
    let network = admission::read_areas(net, rows, gained, lost, head)?;
    report_node(network, node, gained, lost, head, out)
}
