// Steps of the station program: the next piece of the file.

#![tactic(auto)]

ghost use Rattle.std.specs.Prelude.{◌≤◌, length};
ghost use Rattle.areas.specs.Lent.{lent};
ghost use Rattle.station_lines.specs.Lines.{node_room};
ghost use Rattle.stages.specs.declared.Stage.TheVariants.{Cut};
ghost use Rattle.stages.specs.Stages.{Opened, Ready, Says, Applies, files};

use pieces::Piece;
use stages::{Said, Stage};
use verdicts::Rule;

// Applies a batch and tells its number, or its refusal; then its nodes' lines, or the piece that starts at an offset.
fn apply(
    net: &[u8],
    batch: &[u8],
    next: usize,
    rows: &mut [u32],
    gained: &mut [u32],
    lost: &mut [u32],
    head: &mut [u32],
    out: &mut [u8],
) -> Said
    requires { Opened net.now (lent rows.old gained.old lost.old head.old)
        × (node_room ≤ length out.old) }
    ensures { Applies net.now batch.now next
        (lent rows.old gained.old lost.old head.old)
        (lent rows.new gained.new lost.new head.new) out.old
        out.new result }
{
    match applying::apply(net, batch, rows, gained, lost, head) {
        Ok(()) => {
            let size = verdict_lines::put_batch(out, head[0] as usize);
            Said {
                size,
                stage: Stage::Tell(0, next),
            }
        }
        Err(refusal) => {
            let number = refusal.rule.number();
            let size = verdict_lines::put_refused(out, number, refusal.place);
            Said {
                size,
                stage: Stage::Cut(next),
            }
        }
    }
}

// The piece of the file that starts at an offset.
pub fn cut(
    n: bool,
    b: bool,
    net: &[u8],
    file: &[u8],
    start: usize,
    rows: &mut [u32],
    gained: &mut [u32],
    lost: &mut [u32],
    head: &mut [u32],
    out: &mut [u8],
) -> Said
    requires { Ready (files n b net.now file.now) (Cut start) (lent rows.old gained.old lost.old head.old)
        × (node_room ≤ length out.old) }
    ensures { Says (files n b net.now file.now) (Cut start)
        (lent rows.old gained.old lost.old head.old)
        (lent rows.new gained.new lost.new head.new) out.old
        out.new result }
{
    match pieces::next_piece(file, start) {
        Piece::Batch(end) => apply(
            net,
            &file[start..end],
            end + 4,
            rows,
            gained,
            lost,
            head,
            out,
        ),
        Piece::Broken(at) => {
            let size = verdict_lines::put_refused(out, Rule::BrokenEvent.number(), at);
            Said {
                size,
                stage: Stage::End,
            }
        }
        Piece::Unfinished => {
            let size = lines::put_line_at(out, 0, b"unfinished", &[]);
            Said {
                size,
                stage: Stage::End,
            }
        }
        Piece::End => Said {
            size: 0,
            stage: Stage::End,
        },
    }
}
