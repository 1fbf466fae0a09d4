// Taking: refusals 1 to 8, 17 and 18, or the next pending row, taken out of the pending area.

#![tactic(auto)]

ghost use Rattle.std.specs.Prelude.{◌≡◌, ℕ, ◌≤◌, ◌<◌, eqb, length, get_or};
ghost use Rattle.model.specs.Row.{max_nodes, keep, numbers_below};
ghost use Rattle.model.specs.Areas.{layout};
ghost use Rattle.model.specs.Pending.{pending_size};
ghost use Rattle.model.specs.Calls.{take_in, take_call};
ghost use Rattle.network.specs.Reading.{Built, network_of};
ghost use Rattle.areas.specs.Lent.{lent};
ghost use Rattle.taking.specs.Taking.{rank_in, highest_in, Held, TakesRow, Takes};

use areas::PLACE;
use network::Network;
use pending::COUNTS;
use rows::STRIDE;
use verdicts::{Refusal, Rule};

// The node and the words of the row taken.
#[derive(Clone, Copy)]
pub struct Taken {
    pub node: usize,
    pub row: [u32; STRIDE],
}

// Node i's rank: 0 with nothing pending, else 1 more than its priority.
fn rank_of(priorities: &[u8], pending: &[u32], i: usize) -> usize
    requires { (i < max_nodes) × (length priorities.now ≡ max_nodes) × (pending_size ≤ length pending.now) }
    ensures { result ≡ rank_in priorities.now pending.now i }
{
    if pending[COUNTS + i] == 0 {
        0
    } else {
        priorities[i] as usize + 1
    }
}

// The highest rank of n nodes.
fn highest_rank(n: usize, priorities: &[u8], pending: &[u32]) -> usize
    requires { (n ≤ max_nodes) × (length priorities.now ≡ max_nodes) × (pending_size ≤ length pending.now) }
    ensures { result ≡ highest_in priorities.now pending.now n }
{
    let mut highest = 0;
    for i in 0..n {
        highest = highest.max(rank_of(priorities, pending, i));
    }
    highest
}

// The lowest of n nodes with a rank, 0 if there is none.
fn lowest_with(rank: usize, n: usize, priorities: &[u8], pending: &[u32]) -> usize
    requires { (n ≤ max_nodes) × (length priorities.now ≡ max_nodes) × (pending_size ≤ length pending.now) }
    ensures { result ≡ get_or (keep (λ i. eqb (rank_in priorities.now pending.now i) rank)
        (numbers_below n)) 0 0 }
{
    (0..n)
        .find(|i| rank_of(priorities, pending, *i) == rank)
        .unwrap_or(0)
}

// Node i's lowest row taken out of the pending area: its words.
fn take_row(pending: &mut [u32], i: usize) -> [u32; STRIDE]
    requires { (w : ℕ) × Held w pending.old i }
    ensures { (w : ℕ) → Held w pending.old i →
        TakesRow w pending.old i pending.new result }
{
    let at = i * PLACE;
    let count = pending[COUNTS + i] as usize;
    let end = at + count * STRIDE;
    let last = end - STRIDE;
    let mut row = [0u32; STRIDE];
    words::copy_run(pending, at, &mut row, 0, STRIDE);
    insertions::close_gap(pending, at, end);
    words::clear_run(pending, last, end);
    pending[COUNTS + i] = (count - 1) as u32;
    row
}

// The next pending row of a network for whose areas 1 to 8 hold: refusals 17 and 18, which write nothing, or the node
// and the row.
fn take_in(network: Network, pending: &mut [u32]) -> Result<Taken, Refusal>
    requires { Built network }
    ensures { Takes (take_in layout (network_of network) pending.old) result pending.new }
{
    let n = network.count;
    let widths = network.widths;
    let signs = network.signs;
    if !pending::good_pending(&widths, n, &signs, pending) {
        return Err(Rule::BadPending.at(0));
    }
    let priorities = network.priorities;
    let rank = highest_rank(n, &priorities, pending);
    if rank == 0 {
        return Err(Rule::NothingPending.at(0));
    }
    let node = lowest_with(rank, n, &priorities, pending);
    let row = take_row(pending, node);
    Ok(Taken { node, row })
}

// Takes the lowest row of the lowest node with the highest priority number that has something pending: refusals 1 to 8,
// 17 and 18, or the node and the row. A refusal writes nothing.
pub fn take(
    net: &[u8],
    rows: &[u32],
    gained: &[u32],
    lost: &[u32],
    head: &[u32],
    pending: &mut [u32],
) -> Result<Taken, Refusal>
    ensures takes { Takes
        (take_call net.now
        (lent rows.now gained.now lost.now head.now)
        pending.old)
        result pending.new }
{
    let network = admission::read_areas(net, rows, gained, lost, head)?;
    take_in(network, pending)
}
