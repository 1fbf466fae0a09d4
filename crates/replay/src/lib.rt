// A file of batches applied from opening on.

#![tactic(auto)]

ghost use Rattle.std.specs.Prelude.{◌+◌, ◌<◌};
ghost use Rattle.model.specs.Text.{pieces};
ghost use Rattle.areas.specs.Lent.{lent};
ghost use Rattle.network.specs.Reading.{result_with};
ghost use Rattle.replay.specs.Replayed.{Reaches, Replayed, calls_of};

use pieces::Piece;
use verdicts::Verdict;

// Every marked batch of a file applied in turn, refused ones too.
fn replay_batches(
    net: &[u8],
    file: &[u8],
    rows: &mut [u32],
    gained: &mut [u32],
    lost: &mut [u32],
    head: &mut [u32],
)
    ensures { Reaches net.now
        (lent rows.old gained.old lost.old head.old)
        (calls_of (pieces file.now))
        (lent rows.new gained.new lost.new head.new) }
{
    let mut start = 0;
    while start < file.len() {
        let from = start;
        match pieces::next_piece(file, from) {
            Piece::Batch(end) => {
                let _ = applying::apply(net, &file[from..end], rows, gained, lost, head);
                start = end + 4;
            }
            Piece::Broken(_) | Piece::Unfinished | Piece::End => {
                return;
            }
        }
    }
}

// Opens the areas and applies every marked batch of a file: refusals 1 to 7 of opening, or the plain station's state
// after the whole list.
pub fn replay(
    net: &[u8],
    file: &[u8],
    rows: &mut [u32],
    gained: &mut [u32],
    lost: &mut [u32],
    head: &mut [u32],
) -> Verdict
    ensures replays { Replayed net.now file.now
        (lent rows.old gained.old lost.old head.old)
        (result_with result (lent rows.new gained.new lost.new head.new)) }
{
    opening::open(net, rows, gained, lost, head)?;
    replay_batches(net, file, rows, gained, lost, head);
    Ok(())
}
