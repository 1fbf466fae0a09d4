// An accepted batch written: each node's new rows and its change, and the head.

#![tactic(auto)]

ghost use Rattle.std.specs.Prelude.{◌≡◌, cond, List, ◌*◌, ◌≤◌, length};
ghost use Rattle.model.specs.Row.{Relation, max_nodes};
ghost use Rattle.model.specs.Station.{advance_rows};
ghost use Rattle.model.specs.Areas.{layout, padded, over, state_in, rows_in, batch_number, holding_rows, head_words};
ghost use Rattle.network.specs.Reading.{nodes_of};
ghost use Rattle.areas.specs.Lent.{lent};
ghost use Rattle.transition.specs.Head.{stamps_from, head_from, Advancing};

use areas::{GAINED_COUNTS, ROW_COUNTS, STAMPS, WORKED};
use new_rows::Work;
use rows::MAX_NODES;
use working::Told;

// The stamp of a node: the new number if it changed.
fn stamp_of(stamped: bool, number: u32, stamp: u32) -> u32
    ensures { result ≡ cond stamped number stamp }
{
    if stamped {
        return number;
    }
    stamp
}

// The stamps of the first n nodes, then zeros.
fn new_stamps(head: &[u32], changed: &[bool], number: u32, n: usize) -> [u32; MAX_NODES]
    requires { (n ≤ max_nodes) × (head_words ≤ length head.now) × (n ≤ length changed.now) }
    ensures { result ≡ padded max_nodes (stamps_from head.now changed.now number n) }
{
    let mut stamps = [0u32; MAX_NODES];
    for i in 0..n {
        stamps[i] = stamp_of(changed[i], number, head[STAMPS + i]);
    }
    stamps
}

// The head's named words written: the sizes are the gained counts and the lost counts.
fn write_head(
    head: &mut [u32],
    number: u32,
    counts: &[u32],
    stamps: &[u32],
    sizes: &[u32],
    k: usize,
    entries: &[u32],
)
    requires { (head_words ≤ length head.old) × (length counts.now ≡ max_nodes) × (length stamps.now ≡ max_nodes)
        × (length sizes.now ≡ 2 * max_nodes) × (k ≤ max_nodes) × (length entries.now ≡ max_nodes) }
    ensures { head.new
        ≡ over (head_from number counts.now stamps.now sizes.now k
        entries.now)
        head.old }
{
    head[0] = number;
    words::copy_run(counts, 0, head, ROW_COUNTS, MAX_NODES);
    words::copy_run(stamps, 0, head, STAMPS, MAX_NODES);
    words::copy_run(sizes, 0, head, GAINED_COUNTS, 2 * MAX_NODES);
    head[WORKED] = k as u32;
    words::copy_run(entries, 0, head, WORKED + 1, MAX_NODES);
}

// The state after an accepted batch, written over the one before, once every node of n is worked out.
pub fn write_state<'a>(
    n: usize,
    levels: &'a [usize],
    work: &'a Work,
    due: &'a [bool],
    told: &'a Told,
    rows: &mut [u32],
    gained: &mut [u32],
    lost: &mut [u32],
    head: &mut [u32],
)
    requires { Advancing n levels.now rows.old gained.old lost.old head.old work.now.rows work.now.counts
        work.now.changed due.now told.now.picks told.now.sizes
        × (batch_number head.old ≡ 4294967295 → ⊥) }
    ensures writes { (o : Advancing n levels.now rows.old gained.old lost.old head.old work.now.rows work.now.counts
        work.now.changed due.now told.now.picks told.now.sizes) (copy : List Relation) →
        lent rows.new gained.new lost.new head.new
        ≡ holding_rows layout o.out.new
        (advance_rows (nodes_of o.net)
        (state_in layout (nodes_of o.net) (lent rows.old gained.old lost.old
        head.old)) copy
        (rows_in layout (nodes_of o.net) (lent rows.old gained.old lost.old
        head.old)) o.out.new)
        (lent rows.old gained.old lost.old head.old) }
{
    let number = head[0] + 1;
    changes::write_nodes(n, work, told, rows, gained, lost, head);
    let stamps = new_stamps(head, &work.changed, number, n);
    let mut entries = [0u32; MAX_NODES];
    let k = worklist::list_worked(levels, due, n, &mut entries);
    write_head(
        head,
        number,
        &work.counts,
        &stamps,
        &told.sizes,
        k,
        &entries,
    );
}
