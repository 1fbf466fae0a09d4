// Comparisons of two fields, by their codes.

#![tactic(auto)]

ghost use Rattle.std.specs.Prelude.{◌≡◌};
ghost use Rattle.model.specs.Algebra.{holds_of, compare_fields};
ghost use Rattle.nodes.specs.Nodes.{code_of};
ghost use Rattle.rows.specs.Rows.{order_of};

use nodes::Comparison;
use std::cmp::Ordering;

// What each code says of less, equal and greater, in that order: 1 that it holds.
const COMPARISONS: [u8; 18] = [
    0, // 0 equal: less
    1, // 0 equal: equal
    0, // 0 equal: greater
    1, // 1 unequal: less
    0, // 1 unequal: equal
    1, // 1 unequal: greater
    1, // 2 less: less
    0, // 2 less: equal
    0, // 2 less: greater
    1, // 3 at most: less
    1, // 3 at most: equal
    0, // 3 at most: greater
    0, // 4 greater: less
    0, // 4 greater: equal
    1, // 4 greater: greater
    0, // 5 at least: less
    1, // 5 at least: equal
    1, // 5 at least: greater
];

// Whether a comparison holds of two fields with that outcome.
pub fn holds(comparison: Comparison, outcome: Ordering) -> bool
    ensures { result ≡ holds_of (code_of comparison) (order_of outcome) }
{
    let code = comparison.number();
    match outcome {
        Ordering::Less => COMPARISONS[3 * code] == 1,
        Ordering::Equal => COMPARISONS[3 * code + 1] == 1,
        Ordering::Greater => COMPARISONS[3 * code + 2] == 1,
    }
}

// How two fields compare in a select.
pub fn compare_values(left: u32, right: u32) -> Ordering
    ensures { order_of result ≡ compare_fields left right }
{
    left.cmp(&right)
}
