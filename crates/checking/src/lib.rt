// The coherence check: refusals 1 to 8, or yes or no.

#![tactic(auto)]

ghost use Rattle.std.specs.Prelude.{◌≡◌};
ghost use Rattle.model.specs.Calls.{check_call};
ghost use Rattle.areas.specs.Lent.{lent};
ghost use Rattle.checking.specs.Answer.{check_answer_of};

use verdicts::Refusal;

// Whether the areas are coherent: refusals 1 to 8, or yes or no. Nothing is written.
pub fn check(
    net: &[u8],
    rows: &[u32],
    gained: &[u32],
    lost: &[u32],
    head: &[u32],
) -> Result<bool, Refusal>
    ensures checks { check_answer_of result
        ≡ check_call net.now
        (lent rows.now gained.now lost.now head.now) }
{
    let network = admission::read_areas(net, rows, gained, lost, head)?;
    let yes = coherence::is_coherent(network, rows, head);
    Ok(yes)
}
