// The derived nodes with an input that changed, and the list of the due ones by level, then number.

#![tactic(auto)]

ghost use Rattle.std.specs.Prelude.{◌≡◌, ℕ, ◌+◌, ◌≤◌, ◌<◌, length, replicate, get_or};
ghost use Rattle.model.specs.Row.{max_nodes};
ghost use Rattle.model.specs.Network.{left_of, right_of};
ghost use Rattle.model.specs.Areas.{padded};
ghost use Rattle.network.specs.Reading.{slot_node};
ghost use Rattle.worklist.specs.Listed.{input_changed, due_list, is_above, place_for, put_at};

use network::Slot;

// Whether a derived node has an input that changed.
pub fn input_changed(slot: Slot, changed: &[bool]) -> bool
    requires { (left_of (slot_node slot) < length changed.now) × (right_of (slot_node slot) < length changed.now) }
    ensures { result ≡ input_changed slot changed.now }
{
    let inputs = evaluation::inputs_of(slot);
    changed[inputs.left] || changed[inputs.right]
}

// Whether there is an entry before index at, and its level is above another.
fn is_above(levels: &[usize], level: usize, entries: &[u32], at: usize) -> bool
    requires { (at ≤ length entries.now)
        × ((j : ℕ) → j < at → get_or entries.now j 0 < length levels.now) }
    ensures { result ≡ is_above levels.now level entries.now at }
{
    at > 0 && level < levels[entries[at - 1] as usize]
}

// Node i of a level put among k entries, behind the last of them that is not above the level.
fn put_node(levels: &[usize], level: usize, i: usize, entries: &mut [u32], k: usize)
    requires { (i < max_nodes) × (k < length entries.old)
        × ((j : ℕ) → j < k → get_or entries.old j 0 < length levels.now) }
    ensures { entries.new
        ≡ put_at (place_for levels.now level entries.old k) k i entries.old }
{
    let mut at = k;
    // Not a `for`: it ends where the entry before is not above.
    while is_above(levels, level, entries, at) {
        entries[at] = entries[at - 1];
        at -= 1;
    }
    entries[at] = i as u32;
}

// Node i put among the k entries of the nodes before it, if it is due and derived: how many entries there are then.
fn list_node(levels: &[usize], due: &[bool], i: usize, entries: &mut [u32], k: usize) -> usize
    requires { (i < length levels.now) × (i < length due.now) × (i < max_nodes)
        × ((j : ℕ) → get_or levels.now j 0 ≤ j)
        × (entries.old ≡ padded max_nodes (due_list levels.now due.now i))
        × (k ≡ length (due_list levels.now due.now i)) }
    ensures lists { entries.new
        ≡ padded max_nodes (due_list levels.now due.now (i + 1)) }
    ensures counts { result ≡ length (due_list levels.now due.now (i + 1)) }
{
    if !due[i] {
        return k;
    }
    let level = levels[i];
    if level == 0 {
        return k;
    }
    put_node(levels, level, i, entries, k);
    k + 1
}

// The derived nodes of the first n that are due, by level, then number, put in an array of zeros: how many.
pub fn list_worked(levels: &[usize], due: &[bool], n: usize, entries: &mut [u32]) -> usize
    requires { (n ≤ length levels.now) × (n ≤ length due.now) × (n ≤ max_nodes)
        × (entries.old ≡ replicate max_nodes 0) × ((i : ℕ) → get_or levels.now i 0 ≤ i) }
    ensures lists { entries.new
        ≡ padded max_nodes (due_list levels.now due.now n) }
    ensures counts { result ≡ length (due_list levels.now due.now n) }
    ensures few { result ≤ max_nodes }
{
    let mut k = 0;
    for i in 0..n {
        k = list_node(levels, due, i, entries, k);
    }
    k
}
