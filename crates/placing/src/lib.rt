// A node's place of an area written over with other rows.

#![tactic(auto)]

ghost use Rattle.std.specs.Prelude.{◌≡◌, ℕ, ◌≤◌, ◌<◌, length};
ghost use Rattle.model.specs.Row.{max_nodes, max_rows};
ghost use Rattle.model.specs.Areas.{area_size, place_size};
ghost use Rattle.areas.specs.Lent.{place_at};
ghost use Rattle.places.specs.Places.{Place, relation_in};
ghost use Rattle.placing.specs.Placing.{placed, cleared_rest};

use areas::PLACE;
use rows::STRIDE;

// What stands behind n rows of node i's place, of m that stood there, cleared.
pub fn clear_rest(area: &mut [u32], i: usize, n: usize, m: usize)
    requires { (i < max_nodes) × (area_size ≤ length area.old) × (n ≤ max_rows) × (m ≤ max_rows) }
    ensures { area.new ≡ cleared_rest area.old i n m }
{
    if n < m {
        words::clear_run(area, i * PLACE + n * STRIDE, i * PLACE + m * STRIDE);
    }
}

// The n rows of a place written over node i's place of an area, which has m rows.
pub fn write_place(src: &[u32], n: usize, area: &mut [u32], i: usize, m: usize)
    requires { (i < max_nodes) × (area_size ≤ length area.old) × (n ≤ max_rows) × (m ≤ max_rows)
        × (length src.now ≡ place_size) }
    ensures { (w : ℕ) → Place w src.now n → Place w (place_at area.old i) m →
        area.new ≡ placed area.old i (relation_in w src.now n) }
{
    words::copy_run(src, 0, area, i * PLACE, n * STRIDE);
    clear_rest(area, i, n, m);
}
