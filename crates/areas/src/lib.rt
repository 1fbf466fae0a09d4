// The areas that the caller lends: whether they are long enough, and of good form.

#![tactic(auto)]

ghost use Rattle.std.specs.Prelude.{◌≡◌, true, ◌&&◌, List, ◌+◌, ◌*◌, ◌≤◌, ◌<◌, leb, length, take};
ghost use Rattle.std.proofs.Math.Seq.{slice};
ghost use Rattle.model.specs.Network.{Node, widths};
ghost use Rattle.model.specs.Areas.{layout, long_enough, all_zero, good_area, good_stamps, good_worked, good_form};
ghost use Rattle.model.specs.Areas.{area_size, place_size, head_words};
ghost use Rattle.model.specs.Row.{max_nodes, max_rows, max_width, Narrow};
ghost use Rattle.rows.specs.Rows.{first_rows};
ghost use Rattle.row_checks.specs.RowChecks.{good_rows};
ghost use Rattle.areas.specs.Lent.{lent, counts_from, place_at};

use rows::{MAX_NODES, MAX_ROWS, STRIDE};

// How many words a node's place has.
pub const PLACE: usize = MAX_ROWS * STRIDE;

// The named words of rows, gained and lost.
pub const AREA: usize = MAX_NODES * PLACE;

// Where the head's lists begin, one behind the other after the batch number.
pub const ROW_COUNTS: usize = 1;

pub const STAMPS: usize = ROW_COUNTS + MAX_NODES;

pub const GAINED_COUNTS: usize = STAMPS + MAX_NODES;

pub const LOST_COUNTS: usize = GAINED_COUNTS + MAX_NODES;

// How many nodes were worked on; their numbers stand behind it.
pub const WORKED: usize = LOST_COUNTS + MAX_NODES;

// The named words of the head.
pub const HEAD: usize = WORKED + 1 + MAX_NODES;

// Whether every area has its named words.
#[tactic(auto, using(std::proofs::lemmas::Bool::Decides::nat_tests), unfolding(model::specs::Areas::long_enough))]
pub fn long_enough(rows: &[u32], gained: &[u32], lost: &[u32], head: &[u32]) -> bool
    ensures tells { result ≡ long_enough layout
        (lent rows.now gained.now lost.now head.now) }
{
    rows.len() >= AREA && gained.len() >= AREA && lost.len() >= AREA && head.len() >= HEAD
}

// Whether node i's rows are of good form, given their width and count, and the words from index from up to them are 0.
#[tactic(auto, using(std::proofs::lemmas::Bool::Decides::nat_tests))]
fn good_node(area: &[u32], from: usize, i: usize, width: usize, count: usize) -> bool
    requires { (from ≤ i * place_size) × (i < max_nodes) × (area_size ≤ length area.now) × (width ≤ max_width) }
    ensures { result ≡ (leb count max_rows && all_zero (slice from (i * place_size) area.now)
        && good_rows width (first_rows (place_at area.now i) count)) }
{
    let at = i * PLACE;
    count <= MAX_ROWS
        && zeros::all_zero(area, from, at)
        && row_checks::good_rows(&area[at..at + PLACE], count, width)
}

// Whether every place of an area is of good form, in a network of n nodes, the counts standing in words of the
// head, or of another area, from one on. The words between the rows of a node and those of the next that has any are
// one run; so are all words behind the last rows.
pub fn good_area(area: &[u32], widths: &[usize], n: usize, words: &[u32], first: usize) -> bool
    requires { (area_size ≤ length area.now) × (n ≤ length widths.now) × (n ≤ max_nodes) × Narrow widths.now
        × (first + max_nodes ≤ length words.now) }
    ensures { result ≡ good_area layout (take n widths.now) (counts_from words.now first)
        area.now }
{
    let mut from = 0;
    for i in 0..n {
        let count = words[first + i] as usize;
        if count != 0 {
            if !good_node(area, from, i, widths[i], count) {
                return false;
            }
            from = i * PLACE + count * STRIDE;
        }
    }
    zeros::all_zero(words, first + n, first + MAX_NODES) && zeros::all_zero(area, from, AREA)
}

// Whether every change stamp is at most the batch number, and 0 past the last of n nodes.
fn good_stamps(head: &[u32], n: usize) -> bool
    requires { (head_words ≤ length head.now) × (n ≤ max_nodes) }
    ensures { result ≡ good_stamps n head.now }
{
    let number = head[0];
    for node in 0..n {
        if number < head[STAMPS + node] {
            return false;
        }
    }
    zeros::all_zero(head, STAMPS + n, STAMPS + MAX_NODES)
}

// Whether the worked list has at most n entries, each below n, and 0 past them.
fn good_worked(head: &[u32], n: usize) -> bool
    requires { (head_words ≤ length head.now) × (n ≤ max_nodes) }
    ensures { result ≡ good_worked n head.now }
{
    let counted = head[WORKED] as usize;
    if n < counted {
        return false;
    }
    for k in 0..counted {
        if n <= head[WORKED + 1 + k] as usize {
            return false;
        }
    }
    zeros::all_zero(head, WORKED + 1 + counted, WORKED + 1 + MAX_NODES)
}

// Whether the areas are of good form for a network with these widths.
#[tactic(auto, using(std::proofs::lemmas::Bool::Decides::nat_tests), unfolding(model::specs::Areas::long_enough))]
pub fn good_form(
    widths: &[usize],
    n: usize,
    rows: &[u32],
    gained: &[u32],
    lost: &[u32],
    head: &[u32],
) -> bool
    requires { (n ≤ length widths.now) × (n ≤ max_nodes) × Narrow widths.now
        × (long_enough layout (lent rows.now gained.now lost.now head.now) ≡ true) }
    ensures tells { (nodes : List Node) →
        take n widths.now ≡ Rattle.model.specs.Network.widths nodes →
        result ≡ good_form layout nodes (lent rows.now gained.now lost.now
        head.now) }
{
    good_area(rows, widths, n, head, ROW_COUNTS)
        && good_area(gained, widths, n, head, GAINED_COUNTS)
        && good_area(lost, widths, n, head, LOST_COUNTS)
        && good_stamps(head, n)
        && good_worked(head, n)
}
