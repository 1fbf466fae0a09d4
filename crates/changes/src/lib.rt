// An accepted batch's rows written: each node's new rows, and the rows that it gained and lost.

#![tactic(auto)]

ghost use Rattle.std.specs.Prelude.{◌≡◌, false, cond, ℕ, ◌+◌, ◌*◌, ◌≤◌, ◌<◌, length, get_or, take, drop};
ghost use Rattle.model.specs.Row.{Relation, Wide, max_nodes, max_rows};
ghost use Rattle.model.specs.Areas.{area_size, row_count};
ghost use Rattle.network.specs.Reading.{nodes_of};
ghost use Rattle.areas.specs.Lent.{place_at};
ghost use Rattle.places.specs.Places.{Place, relation_in};
ghost use Rattle.differences.specs.Differences.{Within};
ghost use Rattle.working.specs.Worked.{Picked};
ghost use Rattle.placing.specs.Placing.{placed};
ghost use Rattle.changes.specs.Written.{Writable, WritesNode, Writing, WritesNodes};

use areas::{GAINED_COUNTS, LOST_COUNTS, PLACE, ROW_COUNTS};
use differences::PICKS;
use new_rows::Work;
use rows::{MAX_NODES, MAX_ROWS};
use working::Told;

// Rows of src by count numbers from an index on, written over node i's place of an area, which has m rows.
fn write_picked(
    src: &[u32],
    picks: &[u8],
    from: usize,
    count: usize,
    area: &mut [u32],
    i: usize,
    m: usize,
)
    requires { (i < max_nodes) × (area_size ≤ length area.old) × (count ≤ max_rows) × (m ≤ max_rows)
        × (from + count ≤ length picks.now) × Within src.now (take count (drop from picks.now)) }
    ensures { (w : ℕ) (rel : Relation) → Wide w rel → Place w (place_at area.old i) m →
        Picked rel src.now (drop from picks.now) count →
        area.new ≡ placed area.old i rel }
{
    differences::copy_picked(src, picks, from, count, area, i * PLACE);
    placing::clear_rest(area, i, count, m);
}

// Node i's change written, and if there is one its new rows.
fn write_node(
    i: usize,
    work: &Work,
    told: &Told,
    rows: &mut [u32],
    gained: &mut [u32],
    lost: &mut [u32],
    head: &[u32],
)
    requires { Writable rows.old gained.old lost.old head.now work.now.rows work.now.counts
        work.now.changed told.now.picks told.now.sizes i }
    ensures { (o : Writable rows.old gained.old lost.old head.now
        work.now.rows work.now.counts work.now.changed told.now.picks told.now.sizes i) →
        WritesNode
        (relation_in o.width (place_at rows.old i) (row_count head.now i))
        (relation_in o.width
        (place_at (cond (get_or work.now.changed i false) work.now.rows rows.old) i)
        (get_or work.now.counts i 0))
        rows.old gained.old lost.old rows.new gained.new
        lost.new i }
{
    let at = i * PLACE;
    let numbers = &told.picks[i * PICKS..i * PICKS + PICKS];
    let g = told.sizes[i] as usize;
    let l = told.sizes[MAX_NODES + i] as usize;
    let was = head[GAINED_COUNTS + i] as usize;
    write_picked(&work.rows[at..at + PLACE], numbers, 0, g, gained, i, was);
    let went = head[LOST_COUNTS + i] as usize;
    write_picked(&rows[at..at + PLACE], numbers, MAX_ROWS, l, lost, i, went);
    if work.changed[i] {
        placing::write_place(
            &work.rows[at..at + PLACE],
            work.counts[i] as usize,
            rows,
            i,
            head[ROW_COUNTS + i] as usize,
        );
    }
}

// Every node's new rows and its change written, of n nodes.
pub fn write_nodes(
    n: usize,
    work: &Work,
    told: &Told,
    rows: &mut [u32],
    gained: &mut [u32],
    lost: &mut [u32],
    head: &[u32],
)
    requires { Writing n rows.old gained.old lost.old head.now work.now.rows work.now.counts
        work.now.changed told.now.picks told.now.sizes }
    ensures { (o : Writing n rows.old gained.old lost.old head.now
        work.now.rows work.now.counts work.now.changed told.now.picks told.now.sizes) →
        WritesNodes (nodes_of o.net) o.out.new rows.old gained.old lost.old
        head.now rows.new gained.new lost.new n }
{
    for i in 0..n {
        write_node(i, work, told, rows, gained, lost, head);
    }
}
