// Folding: refusals 1 to 8 and 17, or each node's gained and lost rows folded into the pending area.

#![tactic(auto)]

ghost use Rattle.std.specs.Prelude.{◌≡◌, [], ℕ, ◌≤◌, ◌<◌, leb, length, get_or};
ghost use Rattle.model.specs.Network as model;
ghost use Rattle.model.specs.Row.{max_nodes, max_rows, all_of};
ghost use Rattle.model.specs.Areas.{layout, head_words, over};
ghost use Rattle.model.specs.Pending.{pending_in, pending_of, fold_all};
ghost use Rattle.model.specs.Calls.{fold_in, fold_call};
ghost use Rattle.network.specs.Reading.{Built, network_of, nodes_of};
ghost use Rattle.areas.specs.Lent.{lent};
ghost use Rattle.places.specs.Places.{Blank, Makes};
ghost use Rattle.folding.specs.Folding.{is_touched, Foldable, folded_words, changes_held, Ready, folded_at, with_node};
ghost use Rattle.folding.specs.Folding.{FitTo, Signed, Changed, fold_answer_of};

use areas::{GAINED_COUNTS, LOST_COUNTS, PLACE};
use network::Network;
use pending::COUNTS;
use rows::MAX_ROWS;
use verdicts::{Rule, Verdict};

// Whether folding touches node i: it alerts, and has gained or lost rows.
fn is_touched(i: usize, signs: &[u8], head: &[u32]) -> bool
    requires { (i < max_nodes) × (length signs.now ≡ max_nodes) × (head_words ≤ length head.now) }
    ensures { result ≡ is_touched (get_or signs.now i 0) head.now i }
{
    pending::alerts(signs[i]) && (head[GAINED_COUNTS + i] != 0 || head[LOST_COUNTS + i] != 0)
}

// Node i's pending rows without its lost rows and with its gained ones, in an empty place: how many, or None where they
// are more than 64.
fn fold_node(
    i: usize,
    gained: &[u32],
    lost: &[u32],
    head: &[u32],
    pending: &[u32],
    out: &mut [u32],
) -> Option<usize>
    requires { ((w : ℕ) × Foldable w i gained.now lost.now head.now pending.now) × Blank out.old }
    ensures { (w : ℕ) →
        Foldable w i gained.now lost.now head.now pending.now →
        Makes (folded_words w i gained.now lost.now head.now pending.now)
        out.new result }
{
    let at = i * PLACE;
    let had = pending[COUNTS + i] as usize;
    let gone = head[LOST_COUNTS + i] as usize;
    let came = head[GAINED_COUNTS + i] as usize;
    let mut kept = [0u32; PLACE];
    let left = sets::difference_rows(
        &pending[at..at + PLACE],
        had,
        &lost[at..at + PLACE],
        gone,
        &mut kept,
    );
    unions::union_rows(&kept, left, &gained[at..at + PLACE], came, out)
}

// Whether node i has at most 64 pending rows once it is folded. It is folded only if the rows that it has and those
// that it gained are more.
fn node_fits(i: usize, gained: &[u32], lost: &[u32], head: &[u32], pending: &[u32]) -> bool
    requires { (net : model.Network) × Ready net gained.now lost.now head.now pending.now
        × (i < length net.nodes) }
    ensures { (net : model.Network) →
        Ready net gained.now lost.now head.now pending.now →
        i < length net.nodes →
        result ≡ leb (length (folded_at net gained.now lost.now head.now
        pending.now i)) max_rows }
{
    let had = pending[COUNTS + i] as usize;
    let came = head[GAINED_COUNTS + i] as usize;
    if had + came <= MAX_ROWS {
        return true;
    }
    let mut out = [0u32; PLACE];
    fold_node(i, gained, lost, head, pending, &mut out).is_some()
}

// Whether every one of n nodes has at most 64 pending rows once it is folded.
fn all_fit(n: usize, gained: &[u32], lost: &[u32], head: &[u32], pending: &[u32]) -> bool
    requires { (net : model.Network) × Ready net gained.now lost.now head.now pending.now
        × (length net.nodes ≡ n) }
    ensures { (net : model.Network) →
        Ready net gained.now lost.now head.now pending.now →
        length net.nodes ≡ n →
        result ≡ all_of (λ rel. leb (length rel) max_rows)
        (fold_all net (changes_held net.nodes gained.now lost.now head.now)
        (pending_in layout net pending.now)) }
{
    (0..n).all(|i| node_fits(i, gained, lost, head, pending))
}

// Node i's folded rows, which fit, written over its pending ones.
fn write_node(
    i: usize,
    signs: &[u8],
    gained: &[u32],
    lost: &[u32],
    head: &[u32],
    pending: &mut [u32],
)
    requires { (net : model.Network) × Ready net gained.now lost.now head.now pending.old
        × Signed net signs.now × (i < length net.nodes)
        × (length (folded_at net gained.now lost.now head.now pending.old i) ≤ max_rows) }
    ensures { (net : model.Network) →
        Ready net gained.now lost.now head.now pending.old →
        Signed net signs.now → i < length net.nodes →
        length (folded_at net gained.now lost.now head.now pending.old i)
        ≤ max_rows →
        pending.new ≡ with_node net gained.now lost.now head.now
        pending.old i }
{
    if !is_touched(i, signs, head) {
        return;
    }
    let mut out = [0u32; PLACE];
    if let Some(count) = fold_node(i, gained, lost, head, pending, &mut out) {
        pending::put_rows(&out, count, pending, i);
    }
}

// The folded rows of n nodes, which fit, written over the pending ones.
fn write_nodes(
    n: usize,
    signs: &[u8],
    gained: &[u32],
    lost: &[u32],
    head: &[u32],
    pending: &mut [u32],
)
    requires { (net : model.Network) × Ready net gained.now lost.now head.now pending.old
        × Signed net signs.now × (length net.nodes ≡ n)
        × FitTo n net gained.now lost.now head.now pending.old }
    ensures { (net : model.Network) →
        Ready net gained.now lost.now head.now pending.old →
        Signed net signs.now → length net.nodes ≡ n →
        FitTo n net gained.now lost.now head.now pending.old →
        pending.new ≡ over (pending_of layout
        (fold_all net (changes_held net.nodes gained.now lost.now head.now)
        (pending_in layout net pending.old))) pending.old }
{
    for i in 0..n {
        write_node(i, signs, gained, lost, head, pending);
    }
}

// A network's gained and lost rows folded into the pending area, for areas for which 1 to 8 hold: refusal 17, which
// writes nothing, or the folded rows.
fn fold_in(
    network: Network,
    gained: &[u32],
    lost: &[u32],
    head: &[u32],
    pending: &mut [u32],
) -> Verdict
    requires { Built network × Changed (nodes_of network) gained.now lost.now head.now }
    ensures { fold_answer_of result pending.new
        ≡ fold_in layout (network_of network) (lent [] gained.now lost.now head.now)
        pending.old }
{
    let n = network.count;
    let widths = network.widths;
    let signs = network.signs;
    if !pending::good_pending(&widths, n, &signs, pending)
        || !all_fit(n, gained, lost, head, pending)
    {
        return Err(Rule::BadPending.at(0));
    }
    write_nodes(n, &signs, gained, lost, head, pending);
    Ok(())
}

// Folds the gained and lost rows of nodes watched with sign 1 or 3 into the pending area: refusals 1 to 8 and 17. A
// refusal writes nothing.
pub fn fold(
    net: &[u8],
    rows: &[u32],
    gained: &[u32],
    lost: &[u32],
    head: &[u32],
    pending: &mut [u32],
) -> Verdict
    ensures folds { fold_answer_of result pending.new
        ≡ fold_call net.now
        (lent rows.now gained.now lost.now head.now)
        pending.old }
{
    let network = admission::read_areas(net, rows, gained, lost, head)?;
    fold_in(network, gained, lost, head, pending)
}
