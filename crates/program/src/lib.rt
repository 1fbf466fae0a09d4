// The station program on slices: a small step at a time, from both files to the last line.

#![tactic(auto)]

ghost use Rattle.std.specs.Prelude.{◌≤◌, length};
ghost use Rattle.areas.specs.Lent.{lent};
ghost use Rattle.station_lines.specs.Lines.{node_room};
ghost use Rattle.stages.specs.declared.Stage.TheVariants.{Begin, Cut, Tell};
ghost use Rattle.stages.specs.Stages.{Ready, Says, files};

use stages::{Said, Stage};

// The most bytes that a step writes.
pub const ROOM: usize = station_lines::NODE_ROOM;

// A step of the program, given whether the network's file (n) and that of the batches (b) are there: what it prints is
// written from the first byte on.
pub fn step(
    n: bool,
    b: bool,
    net: &[u8],
    file: &[u8],
    stage: Stage,
    rows: &mut [u32],
    gained: &mut [u32],
    lost: &mut [u32],
    head: &mut [u32],
    out: &mut [u8],
) -> Said
    requires { Ready (files n b net.now file.now) stage (lent rows.old gained.old lost.old head.old)
        × (node_room ≤ length out.old) }
    ensures says { Says (files n b net.now file.now) stage
        (lent rows.old gained.old lost.old head.old)
        (lent rows.new gained.new lost.new head.new) out.old
        out.new result }
{
    match stage {
        Stage::Begin => beginning::begin(n, b, net, file, rows, gained, lost, head, out),
        Stage::Cut(start) => cutting::cut(n, b, net, file, start, rows, gained, lost, head, out),
        Stage::Tell(node, next) => telling::tell(
            n, b, net, file, node, next, rows, gained, lost, head, out,
        ),
        Stage::End => Said {
            size: 0,
            stage: Stage::End,
        },
    }
}
