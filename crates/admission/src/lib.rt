// The checks that every call on opened areas makes first: refusals 1 to 8.

#![tactic(auto)]

ghost use Rattle.areas.specs.Lent.{lent};
ghost use Rattle.admission.specs.Admission.{Admits};

use network::Network;
use verdicts::{Refusal, Rule};

// Reads the network and judges the areas: refusals 1 to 8.
pub fn read_areas(
    net: &[u8],
    rows: &[u32],
    gained: &[u32],
    lost: &[u32],
    head: &[u32],
) -> Result<Network, Refusal>
    ensures admits { Admits net.now
        (lent rows.now gained.now lost.now head.now) result }
{
    if !areas::long_enough(rows, gained, lost, head) {
        return Err(Rule::ShortArea.at(0));
    }
    let reading = network::read_network(net);
    let Ok(network) = reading else {
        return reading;
    };
    // The widths alone are taken out: the network stays in the reading, which is handed on.
    let widths = network.widths;
    if !areas::good_form(&widths, network.count, rows, gained, lost, head) {
        return Err(Rule::BadForm.at(0));
    }
    reading
}
