// Opening: refusals 1 to 7, or every named word set to 0.

#![tactic(auto)]

ghost use Rattle.std.specs.Prelude.{◌≡◌, true};
ghost use Rattle.model.specs.Areas.{layout, long_enough, cleared};
ghost use Rattle.model.specs.Calls.{open_call};
ghost use Rattle.network.specs.Reading.{result_with};
ghost use Rattle.areas.specs.Lent.{lent};

use areas::{AREA, HEAD};
use verdicts::{Rule, Verdict};

// Every named word set to 0.
fn clear(rows: &mut [u32], gained: &mut [u32], lost: &mut [u32], head: &mut [u32])
    requires { long_enough layout (lent rows.old gained.old lost.old head.old) ≡ true }
    ensures { lent rows.new gained.new lost.new head.new
        ≡ cleared layout (lent rows.old gained.old lost.old head.old) }
{
    words::clear_run(rows, 0, AREA);
    words::clear_run(gained, 0, AREA);
    words::clear_run(lost, 0, AREA);
    words::clear_run(head, 0, HEAD);
}

// Opens the areas for a network: refusals 1 to 7, or every named word set to 0.
pub fn open(
    net: &[u8],
    rows: &mut [u32],
    gained: &mut [u32],
    lost: &mut [u32],
    head: &mut [u32],
) -> Verdict
    ensures opens { result_with result
        (lent rows.new gained.new lost.new head.new)
        ≡ open_call net.now
        (lent rows.old gained.old lost.old head.old) }
{
    if !areas::long_enough(rows, gained, lost, head) {
        return Err(Rule::ShortArea.at(0));
    }
    network::read_network(net)?;
    clear(rows, gained, lost, head);
    Ok(())
}
