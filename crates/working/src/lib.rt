// A node worked: its new rows put beside the old ones, if they are others, with their count and the change.

#![tactic(auto)]

ghost use Rattle.std.specs.Prelude.{◌≡◌, true, false, List, ℕ, ◌*◌, ◌≤◌, ◌<◌, length, get_or, set};
ghost use Rattle.model.specs.Row.{ascending, max_nodes, max_rows};
ghost use Rattle.rows.specs.Rows.{first_rows};
ghost use Rattle.places.specs.Places.{Place, Blank, relation_in};
ghost use Rattle.network.specs.Reading.{slot_node};
ghost use Rattle.areas.specs.Lent.{place_at};
ghost use Rattle.model.specs.Network.{left_of, right_of};
ghost use Rattle.model.specs.Areas.{area_size, place_size};
ghost use Rattle.new_rows.specs.Working.{working_in, Workable};
ghost use Rattle.working.specs.Worked.{told_in, Tells, KeepsTold, Untold, must_work, next_rows};
ghost use Rattle.working.specs.Worked.{WorksNode, WorksOr, Puts};

use areas::{PLACE, ROW_COUNTS};
use differences::PICKS;
use network::Slot;
use new_rows::Work;
use rows::{MAX_NODES, STRIDE};

// What is told of the nodes' changes: for each node the numbers of its rows that came and of those that went, and for
// all nodes how many came, then how many went.
#[derive(Drop)]
pub struct Told {
    pub picks: [u8; MAX_NODES * PICKS],
    pub sizes: [u32; 2 * MAX_NODES],
}

// Whether node i, of a level, must be worked: an event names the table, which is marked, or an input changed, which
// is marked now.
fn must_work(slot: Slot, level: usize, i: usize, changed: &[bool], due: &mut [bool]) -> bool
    requires { (i < length due.old) × ((level ≡ 0 → ⊥) → (left_of (slot_node slot) < length changed.now)
        × (right_of (slot_node slot) < length changed.now)) }
    ensures tells { result ≡ must_work slot level i changed.now due.old }
    ensures marks { due.new ≡ set due.old i result }
{
    if level == 0 {
        return due[i];
    }
    let must = worklist::input_changed(slot, changed);
    due[i] = must;
    must
}

// The change from node i's rows in the rows area to those of a place told: the numbers of the rows that came and went,
// and how many they are.
fn tell_change(new: &[u32], n: usize, rows: &[u32], i: usize, m: usize, told: &mut Told)
    requires { (i < max_nodes) × (n ≤ max_rows) × (m ≤ max_rows) × (area_size ≤ length rows.now)
        × (length new.now ≡ place_size) × (ascending (first_rows new.now n) ≡ true)
        × (ascending (first_rows (place_at rows.now i) m) ≡ true) }
    ensures tells { (w : ℕ) → Place w new.now n → Place w (place_at rows.now i) m →
        Tells (relation_in w (place_at rows.now i) m) (place_at rows.now i)
        (relation_in w new.now n) new.now (told_in told.new) i }
    ensures keeps { KeepsTold (told_in told.old) (told_in told.new) i }
{
    let at = i * PICKS;
    let change = differences::compare_places(
        &rows[i * PLACE..i * PLACE + PLACE],
        m,
        new,
        n,
        &mut told.picks[at..at + PICKS],
    );
    told.sizes[i] = change.gained as u32;
    told.sizes[MAX_NODES + i] = change.lost as u32;
}

// The rows of a place put as node i's new rows: their count, whether they are others than the old ones, and if so
// the change and the rows themselves, in the working rows.
fn put_node(
    out: &[u32],
    n: usize,
    rows: &[u32],
    i: usize,
    m: usize,
    work: &mut Work,
    told: &mut Told,
)
    requires { (i < max_nodes) × (n ≤ max_rows) × (m ≤ max_rows) × (area_size ≤ length rows.now)
        × (length out.now ≡ place_size) × (ascending (first_rows out.now n) ≡ true)
        × (ascending (first_rows (place_at rows.now i) m) ≡ true)
        × Blank (place_at work.old.rows i) × (get_or work.old.changed i false ≡ false) × Untold (told_in told.old) i }
    ensures { (w : ℕ) (ws : List ℕ) → Place w out.now n → Place w (place_at rows.now i) m →
        Puts (relation_in w (place_at rows.now i) m) (relation_in w out.now n) out.now n
        (working_in ws rows.now work.old) (working_in ws rows.now work.new)
        (told_in told.old) (told_in told.new) i }
{
    work.counts[i] = n as u32;
    if places::same_rows(out, n, &rows[i * PLACE..i * PLACE + PLACE], m) {
        return;
    }
    work.changed[i] = true;
    tell_change(out, n, rows, i, m, told);
    words::copy_run(out, 0, &mut work.rows, i * PLACE, n * STRIDE);
}

// Node i, of a level, worked: its new rows and its change are ready, or None where the rows are more than 64. A node
// that need not be worked keeps its rows.
pub fn work_node(
    slot: Slot,
    level: usize,
    i: usize,
    bytes: &[u8],
    widths: &[usize],
    rows: &[u32],
    head: &[u32],
    work: &mut Work,
    due: &mut [bool],
    told: &mut Told,
) -> Option<()>
    requires { Workable slot level bytes.now head.now (working_in widths.now rows.now work.old) i
        × Untold (told_in told.old) i × (i < length due.old) }
    ensures { WorksOr
        (WorksNode head.now
        (next_rows slot level bytes.now head.now (working_in widths.now rows.now work.old) due.old i)
        (working_in widths.now rows.now work.old) (working_in widths.now rows.now work.new)
        (told_in told.old) (told_in told.new)
        due.old due.new (must_work slot level i work.old.changed due.old) i)
        (next_rows slot level bytes.now head.now (working_in widths.now rows.now work.old) due.old i) result }
{
    let n = head[ROW_COUNTS + i];
    if !must_work(slot, level, i, &work.changed, due) {
        work.counts[i] = n;
        return Some(());
    }
    let mut out = [0u32; PLACE];
    let count = new_rows::work_rows(slot, level, i, bytes, widths, rows, head, work, &mut out)?;
    put_node(&out, count, rows, i, n as usize, work, told);
    Some(())
}
