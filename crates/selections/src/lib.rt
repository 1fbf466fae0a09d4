// Select (kinds 2 and 3) on places.

#![tactic(auto)]

ghost use Rattle.std.specs.Prelude.{◌≡◌, ℕ, ◌+◌, ◌*◌, ◌≤◌, ◌<◌, length};
ghost use Rattle.model.specs.Algebra.{operand_in, passes, select_rows};
ghost use Rattle.model.specs.Row.{max_rows};
ghost use Rattle.model.specs.Areas.{stride};
ghost use Rattle.rows.specs.Rows.{row_at};
ghost use Rattle.nodes.specs.Nodes.{code_of, operand_of};
ghost use Rattle.places.specs.Places.{Place, Blank, relation_in, Fills};
ghost use Rattle.selections.specs.Selections.{OperandIn, Selects};

use nodes::{Comparison, Operand};
use rows::STRIDE;

// The number that a select's operand is for row i: the constant, or the row's field.
fn operand_in(input: &[u32], i: usize, operand: Operand) -> u32
    requires { (i * stride + stride ≤ length input.now) × OperandIn stride operand }
    ensures { result ≡ operand_in (operand_of operand) (row_at stride input.now i) }
{
    match operand {
        Operand::Constant(value) => value,
        Operand::Column(other) => input[i * STRIDE + other],
    }
}

// Whether row i passes a select's test.
fn passes_row(
    input: &[u32],
    i: usize,
    column: usize,
    comparison: Comparison,
    operand: Operand,
) -> bool
    requires { (i * stride + stride ≤ length input.now) × (column < stride)
        × OperandIn stride operand }
    ensures { result ≡ passes column (code_of comparison) (operand_of operand) (row_at stride input.now i) }
{
    let left = input[i * STRIDE + column];
    let right = operand_in(input, i, operand);
    comparisons::holds(comparison, comparisons::compare_values(left, right))
}

// The rows of a place that pass a select's test, in an empty place: how many.
pub fn select_rows(
    input: &[u32],
    n: usize,
    column: usize,
    comparison: Comparison,
    operand: Operand,
    out: &mut [u32],
) -> usize
    requires { (n ≤ max_rows) × (n * stride ≤ length input.now) × (column < stride)
        × OperandIn stride operand × Blank out.old }
    ensures { (w : ℕ) → Place w input.now n → Selects w column operand →
        Fills (select_rows column (code_of comparison) (operand_of operand) (relation_in w input.now n))
        out.new result }
{
    let mut count = 0;
    for i in 0..n {
        if passes_row(input, i, column, comparison, operand) {
            words::copy_run(input, i * STRIDE, out, count * STRIDE, STRIDE);
            count += 1;
        }
    }
    count
}
