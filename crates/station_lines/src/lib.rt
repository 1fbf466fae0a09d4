// The station program's lines of a node's watched changes, written into lent bytes.

#![tactic(auto)]

ghost use Rattle.std.specs.Prelude.{◌≡◌, cond, ◌+◌, ◌*◌, ◌≤◌, ◌<◌, length};
ghost use mathlib.Core.List.{◌∷◌, [], flat_map};
ghost use Rattle.model.specs.Areas.{layout, fields, held_in, padded, area_size};
ghost use Rattle.model.specs.Watched.{changes_of};
ghost use Rattle.model.specs.Text.{line, change_line};
ghost use Rattle.model.specs.Row.{max_nodes, max_rows, max_width};
ghost use Rattle.network.specs.Reading.{Built};
ghost use Rattle.admission.specs.Admission.{Changes};
ghost use Rattle.lines.specs.Written.{Put};
ghost use Rattle.station_lines.specs.Lines.{change_lines, change_room, lines_in, node_room};

use areas::{GAINED_COUNTS, LOST_COUNTS, PLACE};
use network::Network;
use reports::Direction;
use rows::{MAX_ROWS, MAX_WIDTH, STRIDE};

// The signs of gained and of lost rows.
const PLUS: u8 = b'+';

const MINUS: u8 = b'-';

// How many numbers a changed row's line has at most: the node and the row's fields.
const NUMBERS: usize = 1 + MAX_WIDTH;

// The most bytes of a changed row's line: a sign, the numbers, each a space and at most 20 digits, and the line's end.
const CHANGE_ROOM: usize = 1 + NUMBERS * 21 + 1;

// The most bytes of a node's lines: those of the rows that it gained and lost.
pub const NODE_ROOM: usize = 2 * MAX_ROWS * CHANGE_ROOM;

// The numbers of a changed row's line: the node, then the row's fields, then zeros.
fn change_numbers(node: usize, words: &[u32], from: usize, w: usize) -> [usize; NUMBERS]
    requires { (w ≤ max_width) × (from + w ≤ length words.now) }
    ensures { result ≡ padded (1 + max_width) (node ∷ fields w words.now from) }
{
    let mut numbers = [0usize; NUMBERS];
    numbers[0] = node;
    for k in 0..w {
        numbers[k + 1] = words[from + k] as usize;
    }
    numbers
}

// The line of a changed row, from an offset on: where the bytes after it begin.
fn put_change(
    out: &mut [u8],
    at: usize,
    sign: u8,
    node: usize,
    words: &[u32],
    from: usize,
    w: usize,
) -> usize
    requires { (w ≤ max_width) × (from + w ≤ length words.now) × (at + change_room ≤ length out.old) }
    ensures { Put (line (sign ∷ []) (node ∷ fields w words.now from)) change_room at
        out.old out.new result }
{
    let numbers = change_numbers(node, words, from, w);
    lines::put_line_at(out, at, &[sign], &numbers[..w + 1])
}

// The lines of the rows in a node's place, from an offset on: where the bytes after them begin.
fn put_changes(
    out: &mut [u8],
    at: usize,
    sign: u8,
    node: usize,
    area: &[u32],
    n: usize,
    w: usize,
) -> usize
    requires { (w ≤ max_width) × (n ≤ max_rows) × (node < max_nodes) × (area_size ≤ length area.now)
        × (at + change_room * n ≤ length out.old) }
    ensures { Put (change_lines sign node (held_in layout w n area.now node)) (change_room * n) at
        out.old out.new result }
{
    let mut to = at;
    for j in 0..n {
        to = put_change(out, to, sign, node, area, node * PLACE + j * STRIDE, w);
    }
    to
}

// The lines of the rows in a node's place, where they are allowed: where the bytes after them begin.
fn put_allowed(
    allowed: bool,
    out: &mut [u8],
    at: usize,
    sign: u8,
    node: usize,
    area: &[u32],
    n: usize,
    w: usize,
) -> usize
    requires { (w ≤ max_width) × (n ≤ max_rows) × (node < max_nodes) × (area_size ≤ length area.now)
        × (at + change_room * n ≤ length out.old) }
    ensures { Put (cond allowed (change_lines sign node (held_in layout w n area.now node)) [])
        (change_room * n) at out.old out.new result }
{
    if allowed {
        put_changes(out, at, sign, node, area, n, w)
    } else {
        at
    }
}

// The lines of a node from an offset on, as its watch's sign allows: where the bytes after them begin.
fn put_node(
    out: &mut [u8],
    at: usize,
    sign: usize,
    node: usize,
    w: usize,
    gained: &[u32],
    g: usize,
    lost: &[u32],
    l: usize,
) -> usize
    requires { (w ≤ max_width) × (g ≤ max_rows) × (l ≤ max_rows) × (node < max_nodes) × (area_size ≤ length gained.now)
        × (area_size ≤ length lost.now)
        × (at + node_room ≤ length out.old) }
    ensures { Put (flat_map change_line (changes_of sign node
        (record {
          gained = held_in layout w g gained.entry.now node;
          lost = held_in layout w l
              lost.now node;
        }))) node_room at
        out.old out.new result }
{
    let more = reports::allows(sign, Direction::Gained);
    let less = reports::allows(sign, Direction::Lost);
    let to = put_allowed(more, out, at, PLUS, node, gained, g, w);
    put_allowed(less, out, to, MINUS, node, lost, l, w)
}

// The lines of a node of a network from an offset on: where the bytes after them begin.
pub fn put_watched(
    out: &mut [u8],
    at: usize,
    network: Network,
    node: usize,
    gained: &[u32],
    lost: &[u32],
    head: &[u32],
) -> usize
    requires { Built network × Changes network gained.now lost.now head.now × (node < network.count)
        × (at + node_room ≤ length out.old) }
    ensures { Put (lines_in network gained.now lost.now head.now node) node_room
        at
        out.old out.new result }
{
    let sign = network.signs[node] as usize;
    let w = network.widths[node];
    let g = head[GAINED_COUNTS + node] as usize;
    let l = head[LOST_COUNTS + node] as usize;
    put_node(out, at, sign, node, w, gained, g, lost, l)
}
