// Steps of the station program: the beginning.

#![tactic(auto)]

ghost use Rattle.std.specs.Prelude.{◌≤◌, length};
ghost use Rattle.areas.specs.Lent.{lent};
ghost use Rattle.station_lines.specs.Lines.{node_room};
ghost use Rattle.stages.specs.declared.Stage.TheVariants.{Begin};
ghost use Rattle.stages.specs.Stages.{Ready, Says, files};

use stages::{Said, Stage};

// Before everything: "no input", or the areas are opened and a refused network is told.
pub fn begin(
    n: bool,
    b: bool,
    net: &[u8],
    file: &[u8],
    rows: &mut [u32],
    gained: &mut [u32],
    lost: &mut [u32],
    head: &mut [u32],
    out: &mut [u8],
) -> Said
    requires { Ready (files n b net.now file.now) Begin (lent rows.old gained.old lost.old head.old)
        × (node_room ≤ length out.old) }
    ensures { Says (files n b net.now file.now) Begin
        (lent rows.old gained.old lost.old head.old)
        (lent rows.new gained.new lost.new head.new) out.old
        out.new result }
{
    if !stages::has_input(n, b, net, file) {
        let size = lines::put_line_at(out, 0, b"no input", &[]);
        return Said {
            size,
            stage: Stage::End,
        };
    }
    match opening::open(net, rows, gained, lost, head) {
        Ok(()) => Said {
            size: 0,
            stage: Stage::Cut(0),
        },
        Err(refusal) => {
            let number = refusal.rule.number();
            let size = verdict_lines::put_refused(out, number, refusal.place);
            Said {
                size,
                stage: Stage::End,
            }
        }
    }
}
