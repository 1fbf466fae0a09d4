// Coherence: each derived node's rows in the areas are what its kind gives from its inputs' rows.

#![tactic(auto)]

ghost use Rattle.std.specs.Prelude.{◌≡◌, true, false, ◌+◌, ◌≤◌, ◌<◌, length, get_or};
ghost use Rattle.model.specs.Row.{same_rows, max_nodes};
ghost use Rattle.model.specs.Network.{is_table};
ghost use Rattle.model.specs.Areas.{row_count, coherent, head_words};
ghost use Rattle.network.specs.Reading.{slot_node};
ghost use Rattle.places.specs.Places.{Blank, Makes};
ghost use Rattle.coherence.specs.Held.{held_at, Places, Derived, given_at, Checkable, slot_agrees, fresh_in};

use areas::{PLACE, ROW_COUNTS};
use evaluation::Held;
use network::{Network, Slot};

// The width and the count of node i's rows.
fn held(widths: &[usize], head: &[u32], i: usize) -> Held
    requires { (i < length widths.now) × (i < max_nodes) × (head_words ≤ length head.now) }
    ensures { result ≡ record { width = get_or widths.now i 0; count = row_count head.now i } }
{
    Held {
        width: widths[i],
        count: head[ROW_COUNTS + i] as usize,
    }
}

// What a derived node's kind gives from its inputs' rows in the area, in an empty place.
fn evaluate_held(
    slot: Slot,
    widths: &[usize],
    rows: &[u32],
    head: &[u32],
    n: usize,
    out: &mut [u32],
) -> Option<usize>
    requires { Places widths.now n rows.now head.now × Derived slot widths.now n × Blank out.old }
    ensures { Makes (given_at slot widths.now head.now rows.now)
        out.new result }
{
    let inputs = evaluation::inputs_of(slot);
    let l = inputs.left;
    let r = inputs.right;
    let left = held(widths, head, l);
    let right = held(widths, head, r);
    evaluation::evaluate(
        slot,
        &rows[l * PLACE..l * PLACE + PLACE],
        left,
        &rows[r * PLACE..r * PLACE + PLACE],
        right,
        out,
    )
}

// Whether a derived node's rows in the area, node i's, are what its kind gives from its inputs' rows there.
fn rows_agree(slot: Slot, widths: &[usize], rows: &[u32], head: &[u32], i: usize) -> bool
    requires { Places widths.now (i + 1) rows.now head.now × Derived slot widths.now i }
    ensures { result ≡ same_rows (held_at widths.now head.now rows.now i)
        (given_at slot widths.now head.now rows.now) }
{
    let mut out = [0u32; PLACE];
    match evaluate_held(slot, widths, rows, head, i, &mut out) {
        None => false,
        Some(count) => places::same_rows(
            &rows[i * PLACE..i * PLACE + PLACE],
            head[ROW_COUNTS + i] as usize,
            &out,
            count,
        ),
    }
}

// Whether node i, of a level, is a table, which has level 0, or its rows in the area are what its kind gives.
fn node_agrees(
    slot: Slot,
    level: usize,
    widths: &[usize],
    rows: &[u32],
    head: &[u32],
    i: usize,
) -> bool
    requires { Places widths.now (i + 1) rows.now head.now × (level ≡ 0 → is_table (slot_node slot) ≡ true)
        × ((level ≡ 0 → ⊥) → Derived slot widths.now i) }
    ensures { result ≡ slot_agrees slot widths.now head.now rows.now i }
{
    level == 0 || rows_agree(slot, widths, rows, head, i)
}

// Whether areas whose rows are of good form are coherent.
pub fn is_coherent(net: Network, rows: &[u32], head: &[u32]) -> bool
    requires { Checkable net rows.now head.now }
    ensures tells { result ≡ fresh_in net rows.now head.now }
{
    let count = net.count;
    for i in 0..count {
        let slot = net.slots[i];
        let level = net.levels[i];
        if !node_agrees(slot, level, &net.widths, rows, head, i) {
            return false;
        }
    }
    true
}
