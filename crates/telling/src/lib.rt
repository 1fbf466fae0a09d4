// Steps of the station program: a node's lines of the batch just applied.

#![tactic(auto)]

ghost use Rattle.std.specs.Prelude.{◌≡◌, ◌&&◌, ◌≤◌, ◌<◌, eqb, length};
ghost use Rattle.model.specs.Network.{read_network};
ghost use Rattle.model.specs.Areas.{gained_count, lost_count, head_words};
ghost use Rattle.model.specs.Text.{node_lines};
ghost use Rattle.model.specs.Row.{max_nodes};
ghost use Rattle.areas.specs.Lent.{lent};
ghost use Rattle.lines.specs.Written.{Put};
ghost use Rattle.station_lines.specs.Lines.{node_room};
ghost use Rattle.stages.specs.declared.Stage.TheVariants.{Cut, Tell};
ghost use Rattle.stages.specs.Stages.{Opened, Ready, Says, files, state_of};

use areas::{GAINED_COUNTS, LOST_COUNTS};
use rows::MAX_NODES;
use stages::{Said, Stage};

// Whether a node has neither gained nor lost rows.
fn is_unchanged(head: &[u32], node: usize) -> bool
    requires { (head_words ≤ length head.now) × (node < max_nodes) }
    ensures { result ≡ (eqb (gained_count head.now node) 0
        && eqb (lost_count head.now node) 0) }
{
    head[GAINED_COUNTS + node] == 0 && head[LOST_COUNTS + node] == 0
}

// A node's lines, from the first byte on: their length.
fn node_lines(
    net: &[u8],
    node: usize,
    rows: &[u32],
    gained: &[u32],
    lost: &[u32],
    head: &[u32],
    out: &mut [u8],
) -> usize
    requires { Opened net.now (lent rows.now gained.now lost.now head.now) × (node < max_nodes)
        × (node_room ≤ length out.old) }
    ensures { Put (node_lines (read_network net.now).network
        (state_of net.now (lent rows.now gained.now lost.now
        head.now)).changes
        node) node_room 0 out.old out.new result }
{
    if is_unchanged(head, node) {
        return 0;
    }
    match network::read_network(net) {
        Ok(network) => {
            if node < network.count {
                station_lines::put_watched(out, 0, network, node, gained, lost, head)
            } else {
                0
            }
        }
        Err(_) => 0,
    }
}

// A node's lines of the batch just applied; then those of the next node, or the piece that starts at an offset.
pub fn tell(
    n: bool,
    b: bool,
    net: &[u8],
    file: &[u8],
    node: usize,
    next: usize,
    rows: &[u32],
    gained: &[u32],
    lost: &[u32],
    head: &[u32],
    out: &mut [u8],
) -> Said
    requires { Ready (files n b net.now file.now) (Tell node next)
        (lent rows.now gained.now lost.now head.now)
        × (node_room ≤ length out.old) }
    ensures { Says (files n b net.now file.now) (Tell node next)
        (lent rows.now gained.now lost.now head.now)
        (lent rows.now gained.now lost.now head.now) out.old
        out.new result }
{
    let size = node_lines(net, node, rows, gained, lost, head, out);
    if node + 1 < MAX_NODES {
        return Said {
            size,
            stage: Stage::Tell(node + 1, next),
        };
    }
    Said {
        size,
        stage: Stage::Cut(next),
    }
}
