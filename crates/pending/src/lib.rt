// The pending area: rows that wait for the adviser, and whether it is of good form.

#![tactic(auto)]

ghost use Rattle.std.specs.Prelude.{◌≡◌, ℕ, ◌≤◌, ◌<◌, length, get_or, take};
ghost use Rattle.model.specs.Row.{max_nodes, Narrow, all_of, numbers_below};
ghost use Rattle.model.specs.Network.{Network, sign_of};
ghost use Rattle.model.specs.Areas.{layout};
ghost use Rattle.model.specs.Watched.{allows, was_gained};
ghost use Rattle.model.specs.Pending.{pending_size, pending_count, good_pending};
ghost use Rattle.areas.specs.Lent.{place_at};
ghost use Rattle.places.specs.Places.{Place, relation_in};
ghost use Rattle.pending.specs.Placed.{may_hold, pending_with};

use areas::{AREA, PLACE};
use reports::Direction;
use rows::MAX_NODES;

// Where the counts begin: behind the rows, which stand as in the rows area.
pub const COUNTS: usize = AREA;

// The named words: the rows, then a count for each node.
pub const PENDING: usize = COUNTS + MAX_NODES;

// Whether gained rows of a node wait for the adviser, by the sign of its watch: 1 or 3.
pub fn alerts(sign: u8) -> bool
    ensures { result ≡ allows sign was_gained }
{
    reports::allows(sign as usize, Direction::Gained)
}

// Whether node i may hold as many rows as it does: any if it alerts, else none.
fn may_hold(signs: &[u8], pending: &[u32], i: usize) -> bool
    requires { (i < max_nodes) × (length signs.now ≡ max_nodes) × (pending_size ≤ length pending.now) }
    ensures { result ≡ may_hold signs.now pending.now i }
{
    alerts(signs[i]) || pending[COUNTS + i] == 0
}

// Whether only nodes that alert hold rows.
fn held_by_alerts(signs: &[u8], pending: &[u32]) -> bool
    requires { (length signs.now ≡ max_nodes) × (pending_size ≤ length pending.now) }
    ensures { result ≡ all_of (may_hold signs.now pending.now) (numbers_below max_nodes) }
{
    (0..MAX_NODES).all(|i| may_hold(signs, pending, i))
}

// Whether the pending area is of good form, for a network of n nodes with these widths and signs.
pub fn good_pending(widths: &[usize], n: usize, signs: &[u8], pending: &[u32]) -> bool
    requires { (n ≤ length widths.now) × (n ≤ max_nodes) × Narrow widths.now
        × (length signs.now ≡ max_nodes) }
    ensures tells { (net : Network) →
        take n widths.now ≡ Rattle.model.specs.Network.widths net.nodes →
        ((i : ℕ) → get_or signs.now i 0 ≡ sign_of net i) →
        result ≡ good_pending layout net pending.now }
{
    pending.len() >= PENDING
        && areas::good_area(pending, widths, n, pending, COUNTS)
        && held_by_alerts(signs, pending)
}

// The n rows of a place, and their count, written over node i's pending ones, unless they are the same.
pub fn put_rows(src: &[u32], n: usize, pending: &mut [u32], i: usize)
    requires { (i < max_nodes) × (pending_size ≤ length pending.old) × ((w : ℕ) × Place w src.now n
        × Place w (place_at pending.old i) (pending_count layout pending.old i)) }
    ensures { (w : ℕ) → Place w src.now n →
        Place w (place_at pending.old i) (pending_count layout pending.old i) →
        pending.new ≡ pending_with pending.old i (relation_in w src.now n) }
{
    let at = i * PLACE;
    let had = pending[COUNTS + i] as usize;
    if places::same_rows(src, n, &pending[at..at + PLACE], had) {
        return;
    }
    placing::write_place(src, n, pending, i, had);
    pending[COUNTS + i] = n as u32;
}
