// A derived node's rows from those of its inputs.

#![tactic(auto)]

ghost use Rattle.std.specs.Prelude.{◌≡◌, true};
ghost use Rattle.model.specs.Network.{evaluate_set, left_of, right_of, evaluate_on, fits_on};
ghost use Rattle.nodes.specs.Nodes.{operation_of};
ghost use Rattle.network.specs.Reading.{slot_node, Shaped};
ghost use Rattle.places.specs.Places.{Place, Blank, relation_in, Makes};

use masks::Joining;
use network::Slot;
use nodes::{Comparison, Inputs, Node, SetOperation};

// The width of the rows of a place, and how many there are.
#[derive(Clone, Copy)]
pub struct Held {
    pub width: usize,
    pub count: usize,
}

// The rows of a set operation on two places of one width, in an empty place: how many, or None where they are more than
// 64.
fn set_rows(
    operation: SetOperation,
    left: &[u32],
    l: Held,
    right: &[u32],
    r: Held,
    out: &mut [u32],
) -> Option<usize>
    requires { Place l.width left.now l.count × Place l.width right.now r.count × Blank out.old }
    ensures { Makes
        (evaluate_set (operation_of operation) (relation_in l.width left.now l.count)
        (relation_in l.width right.now r.count))
        out.new result }
{
    let n = l.count;
    let m = r.count;
    match operation {
        SetOperation::Union => unions::union_rows(left, n, right, m, out),
        SetOperation::Difference => Some(sets::difference_rows(left, n, right, m, out)),
        SetOperation::Intersection => Some(sets::intersect_rows(left, n, right, m, out)),
    }
}

// The node's first and its last input, both the only one if there is one; 0 of a table.
pub fn inputs_of(slot: Slot) -> Inputs
    ensures left { result.left ≡ left_of (slot_node slot) }
    ensures right { result.right ≡ right_of (slot_node slot) }
{
    let parts = nodes::parts_of(slot.node);
    parts.inputs.unwrap_or(Inputs { left: 0, right: 0 })
}

// A derived node's rows from those of its inputs, in an empty place: how many, or None where they are more than 64. A
// table's kind gives none.
pub fn evaluate(
    slot: Slot,
    left: &[u32],
    l: Held,
    right: &[u32],
    r: Held,
    out: &mut [u32],
) -> Option<usize>
    requires { Shaped slot × Place l.width left.now l.count × Place r.width right.now r.count
        × (fits_on l.width r.width (slot_node slot) ≡ true) × Blank out.old }
    ensures { Makes
        (evaluate_on (slot_node slot) (relation_in l.width left.now l.count)
        (relation_in r.width right.now r.count))
        out.new result }
{
    let n = l.count;
    let m = r.count;
    let node = slot.node;
    match node {
        Node::Table { .. } => Some(0),
        Node::Select {
            column,
            comparison: code,
            operand,
            ..
        } => {
            let Ok(comparison) = Comparison::try_from(code) else {
                unreachable!()
            };
            let count = selections::select_rows(left, n, column, comparison, operand, out);
            Some(count)
        }
        Node::Project { columns: c, .. } => projections::project_rows(
            left,
            n,
            &slot.columns,
            c,
            out,
        ),
        Node::Join {
            pairs: p,
            columns: c,
            ..
        } => {
            let how = Joining {
                split: l.width,
                p,
                pairs: slot.pairs,
                n: c,
                columns: slot.columns,
            };
            joins::join_rows(left, n, right, m, how, out)
        }
        Node::Set { operation, .. } => set_rows(operation, left, l, right, r, out),
        Node::NoMatch { pairs: p, .. } => {
            Some(unmatched::unmatched_rows(left, n, right, m, &slot.pairs, p, out))
        }
    }
}
