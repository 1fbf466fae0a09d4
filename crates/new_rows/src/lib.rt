// A node's rows after a batch, in an empty place: a table's by its events, a derived node's from its inputs' rows.

#![tactic(auto)]

ghost use Rattle.std.specs.Prelude.{◌≡◌, true, cond, ◌≤◌, ◌<◌, length, get_or};
ghost use Rattle.model.specs.Record.{offsets};
ghost use Rattle.places.specs.Places.{Place, Blank, relation_in, Makes};
ghost use Rattle.network.specs.Reading.{slot_node, Shaped};
ghost use Rattle.areas.specs.Lent.{place_at};
ghost use Rattle.model.specs.Network.{left_of, right_of, evaluate_on, fits_on};
ghost use Rattle.model.specs.Areas.{area_size};
ghost use Rattle.model.specs.Row.{max_nodes};
ghost use Rattle.tables.specs.Fold.{Foldable, fold_rows};
ghost use Rattle.new_rows.specs.Working.{working_in, Sized, Present, present_rows, worked_rows, Workable};

use areas::{AREA, PLACE, ROW_COUNTS};
use evaluation::Held;
use network::Slot;
use rows::{MAX_NODES, MAX_ROWS, STRIDE};
use tables::FOLDED;

// A batch's working memory: for each node worked so far its new rows, in a place of its own, where they are others than
// before, their count, and whether they are.
#[derive(Drop)]
pub struct Work {
    pub rows: [u32; AREA],
    pub counts: [u32; MAX_NODES],
    pub changed: [bool; MAX_NODES],
}

// The place of node i's present rows: in the working rows where they changed, else in the rows area.
fn place_of<'a>(changed: bool, work: &'a [u32], rows: &'a [u32], i: usize) -> &'a [u32]
    requires { (i < max_nodes) × (area_size ≤ length work.now) × (area_size ≤ length rows.now) }
    ensures { result.now ≡ place_at (cond changed work.now rows.now) i }
{
    if changed {
        return &work[i * PLACE..i * PLACE + PLACE];
    }
    &rows[i * PLACE..i * PLACE + PLACE]
}

// A table's rows after its events, in an empty place: how many, or None where they are more than 64.
fn work_table(
    bytes: &[u8],
    table: usize,
    width: usize,
    rows: &[u32],
    n: usize,
    out: &mut [u32],
) -> Option<usize>
    requires { Foldable bytes.now table width × (table < max_nodes) × (area_size ≤ length rows.now)
        × Place width (place_at rows.now table) n
        × Blank out.old }
    ensures { Makes
        (fold_rows bytes.now table width (offsets bytes.now)
        (relation_in width (place_at rows.now table) n))
        out.new result }
{
    let mut words = [0u32; FOLDED];
    words::copy_run(rows, table * PLACE, &mut words, 0, n * STRIDE);
    let count = tables::fold(&mut words, n, bytes, table, width);
    if MAX_ROWS < count {
        return None;
    }
    words::copy_run(&words, 0, out, 0, count * STRIDE);
    Some(count)
}

// What a derived node's kind gives from its inputs' present rows, in an empty place: how many, or None where they
// are more than 64.
fn work_derived<'a>(
    slot: Slot,
    widths: &[usize],
    rows: &'a [u32],
    work: &'a Work,
    out: &mut [u32],
) -> Option<usize>
    requires { Sized (working_in widths.now rows.now work.now) × Shaped slot
        × (left_of (slot_node slot) < max_nodes)
        × (right_of (slot_node slot) < max_nodes)
        × Present (working_in widths.now rows.now work.now) (left_of (slot_node slot))
        × Present (working_in widths.now rows.now work.now) (right_of (slot_node slot))
        × (fits_on (get_or widths.now (left_of (slot_node slot)) 0) (get_or widths.now (right_of (slot_node slot)) 0)
        (slot_node slot) ≡ true)
        × Blank out.old }
    ensures { Makes
        (evaluate_on (slot_node slot)
        (present_rows (working_in widths.now rows.now work.now) (left_of (slot_node slot)))
        (present_rows (working_in widths.now rows.now work.now) (right_of (slot_node slot)))) out.new result }
{
    let inputs = evaluation::inputs_of(slot);
    let l = inputs.left;
    let r = inputs.right;
    let left = Held {
        width: widths[l],
        count: work.counts[l] as usize,
    };
    let right = Held {
        width: widths[r],
        count: work.counts[r] as usize,
    };
    let from = place_of(work.changed[l], &work.rows, rows, l);
    let with = place_of(work.changed[r], &work.rows, rows, r);
    evaluation::evaluate(slot, from, left, with, right, out)
}

// Node i's rows, of a level, worked in an empty place: how many, or None where they are more than 64.
pub fn work_rows<'a>(
    slot: Slot,
    level: usize,
    i: usize,
    bytes: &[u8],
    widths: &[usize],
    rows: &'a [u32],
    head: &[u32],
    work: &'a Work,
    out: &mut [u32],
) -> Option<usize>
    requires { Workable slot level bytes.now head.now (working_in widths.now rows.now work.now) i
        × Blank out.old }
    ensures { Makes
        (worked_rows slot level bytes.now head.now (working_in widths.now rows.now work.now) i) out.new result }
{
    if level == 0 {
        return work_table(
            bytes,
            i,
            widths[i],
            rows,
            head[ROW_COUNTS + i] as usize,
            out,
        );
    }
    work_derived(slot, widths, rows, work, out)
}
