// Reports: the records of a watched node's gained and lost rows, written into lent bytes.

#![tactic(auto)]

ghost use Rattle.std.specs.Prelude.{◌≡◌, true, cond, ◌+◌, ◌*◌, ◌≤◌, ◌<◌, length};
ghost use mathlib.Core.List.{flat_map};
ghost use Rattle.std.proofs.lemmas.List.Edits.{sets};
ghost use Rattle.model.specs.Record.{bytes16, bytes32};
ghost use Rattle.model.specs.Areas.{layout, fields, held_in, area_size};
ghost use Rattle.model.specs.Watched.{allows, sign_for};
ghost use Rattle.model.specs.Calls.{change_record, record_kind, report_bytes, written_to};
ghost use Rattle.model.specs.Row.{max_nodes, max_rows, max_width};
ghost use Rattle.reports.specs.Written.{records_of, allowed_of, direction_of, report_size};

use areas::PLACE;
use rows::STRIDE;

// Whether a row was gained or lost.
#[derive(Clone, Copy)]
pub enum Direction {
    Gained,
    Lost,
}

// The sign of a watch for a direction alone.
fn sign_for(direction: Direction) -> usize
    ensures { result ≡ sign_for (direction_of direction) }
{
    match direction {
        Direction::Gained => 1,
        Direction::Lost => 2,
    }
}

// The kind of the records of rows in a direction.
fn record_kind(direction: Direction) -> usize
    ensures { result ≡ record_kind (direction_of direction) }
{
    match direction {
        Direction::Gained => 64,
        Direction::Lost => 65,
    }
}

// Whether a watch's sign allows a direction: 3 allows both.
pub fn allows(sign: usize, direction: Direction) -> bool
    ensures { result ≡ allows sign (direction_of direction) }
{
    sign == 3 || sign == sign_for(direction)
}

// How many bytes the record of a row of so many fields takes.
fn record_size(w: usize) -> usize
    requires { w ≤ max_width }
    ensures { result ≡ 6 + 4 * w }
{
    6 + 4 * w
}

// Bytes written from an offset on.
fn put(out: &mut [u8], at: usize, bytes: &[u8])
    requires { at + length bytes.now ≤ length out.old }
    ensures { out.new ≡ sets out.old at bytes.now }
{
    out[at..at + bytes.len()].copy_from_slice(bytes);
}

// A number in 2 bytes.
fn put16(out: &mut [u8], at: usize, x: usize)
    requires { at + 2 ≤ length out.old }
    ensures { out.new ≡ sets out.old at (bytes16 x) }
{
    put(out, at, &((x % 65536) as u16).to_le_bytes());
}

// The fields of a row, each in 4 bytes.
fn put_fields(out: &mut [u8], at: usize, words: &[u32], from: usize, w: usize)
    requires { (w ≤ max_width) × (at + 4 * w ≤ length out.old) × (from + w ≤ length words.now) }
    ensures { out.new
        ≡ sets out.old at (flat_map bytes32 (fields w words.now from)) }
{
    for k in 0..w {
        put(out, at + 4 * k, &words[from + k].to_le_bytes());
    }
}

// The record of a row of a node: its length, its kind, the node and the row.
fn put_record(
    out: &mut [u8],
    at: usize,
    kind: usize,
    node: usize,
    words: &[u32],
    from: usize,
    w: usize,
)
    requires { (w ≤ max_width) × (at + (6 + 4 * w) ≤ length out.old) × (from + w ≤ length words.now) }
    ensures { out.new
        ≡ sets out.old at (change_record kind node (fields w words.now from)) }
{
    put16(out, at, record_size(w));
    put16(out, at + 2, kind);
    put16(out, at + 4, node);
    put_fields(out, at + 6, words, from, w);
}

// The records of the rows in a node's place.
fn put_records(
    out: &mut [u8],
    at: usize,
    kind: usize,
    node: usize,
    area: &[u32],
    n: usize,
    w: usize,
)
    requires { (w ≤ max_width) × (n ≤ max_rows) × (node < max_nodes) × (area_size ≤ length area.now)
        × (at + n * (6 + 4 * w) ≤ length out.old) }
    ensures { out.new
        ≡ sets out.old at (records_of kind node (held_in layout w n area.now node)) }
{
    let size = record_size(w);
    for j in 0..n {
        put_record(
            out,
            at + j * size,
            kind,
            node,
            area,
            node * PLACE + j * STRIDE,
            w,
        );
    }
}

// How many bytes the records of so many rows take, where a watch's sign allows their direction.
fn allowed_size(direction: Direction, sign: usize, n: usize, w: usize) -> usize
    requires { (w ≤ max_width) × (n ≤ max_rows) }
    ensures { result ≡ cond (allows sign (direction_of direction)) (n * (6 + 4 * w)) 0 }
{
    if allows(sign, direction) {
        n * record_size(w)
    } else {
        0
    }
}

// The records of the rows in a node's place from an offset on, where a watch's sign allows their direction. The offset
// behind them.
fn put_allowed(
    direction: Direction,
    out: &mut [u8],
    at: usize,
    sign: usize,
    node: usize,
    area: &[u32],
    n: usize,
    w: usize,
) -> usize
    requires { (w ≤ max_width) × (n ≤ max_rows) × (node < max_nodes) × (area_size ≤ length area.now)
        × (at + cond (allows sign (direction_of direction)) (n * (6 + 4 * w)) 0 ≤ length out.old) }
    ensures size { result ≡ at + cond (allows sign (direction_of direction)) (n * (6 + 4 * w)) 0 }
    ensures writes { out.new ≡ sets out.old at (allowed_of (allows sign (direction_of direction))
        (record_kind (direction_of direction)) node (held_in layout w n area.now node)) }
{
    if allows(sign, direction) {
        put_records(out, at, record_kind(direction), node, area, n, w);
    }
    at + allowed_size(direction, sign, n, w)
}

// How many bytes the report of a node takes, given its watch's sign, its width and how many rows it gained and lost.
pub fn report_size(sign: usize, w: usize, gained: usize, lost: usize) -> usize
    requires { (w ≤ max_width) × (gained ≤ max_rows) × (lost ≤ max_rows) }
    ensures { result ≡ report_size sign w gained lost }
{
    allowed_size(Direction::Gained, sign, gained, w) + allowed_size(Direction::Lost, sign, lost, w)
}

// The report of a node from the first lent byte on.
pub fn put_report(
    out: &mut [u8],
    sign: usize,
    node: usize,
    w: usize,
    gained: &[u32],
    g: usize,
    lost: &[u32],
    l: usize,
)
    requires { (w ≤ max_width) × (g ≤ max_rows) × (l ≤ max_rows) × (node < max_nodes) × (area_size ≤ length gained.now)
        × (area_size ≤ length lost.now)
        × (report_size sign w g l ≤ length out.old) }
    ensures { out.new
        ≡ written_to out.old
        (report_bytes sign node (record {
          gained = held_in layout w g
              gained.entry.now node;
          lost = held_in layout w l lost.now node;
        })) }
{
    let at = put_allowed(Direction::Gained, out, 0, sign, node, gained, g, w);
    put_allowed(Direction::Lost, out, at, sign, node, lost, l, w);
}
