// The records of derived nodes: rules 6 and 7 on each, by its kind.

#![tactic(auto)]

ghost use Rattle.std.specs.Prelude.{◌≡◌, false, ◌+◌, ◌*◌, ◌≤◌, length, take};
ghost use Rattle.model.specs.Network.{columns_below, pairs_below, pairs_at, counted_shape, join_shape};
ghost use Rattle.model.specs.Record.{fields_at, is_broken, kind_at};
ghost use Rattle.model.specs.Row.{Narrow};
ghost use Rattle.nodes.specs.Nodes.{kind_number, set_kind};
ghost use Rattle.derived_records.specs.Bodies.{ReadsNode, ReadsSelection, ReadsInput, ReadsInputs};

use nodes::{Comparison, Inputs, Item, Kind, MAX_PAIRS, Node, Operand, SetOperation};
use rows::MAX_WIDTH;
use verdicts::Rule;

// The last kind's number.
pub const KINDS: usize = 10;

// Whether n fields of the record from field k on are below a width.
fn columns_below(bytes: &[u8], at: usize, k: usize, n: usize, width: usize) -> bool
    requires { at + 4 + 2 * k + 2 * n ≤ length bytes.now }
    ensures { result ≡ columns_below width (fields_at bytes.now at k n) }
{
    for i in 0..n {
        if width <= records::field_at(bytes, at, k + i) {
            return false;
        }
    }
    true
}

// Whether n pairs of the record from field 3 on are below the left and the right width.
fn pairs_below(bytes: &[u8], at: usize, n: usize, left: usize, right: usize) -> bool
    requires { at + 10 + 4 * n ≤ length bytes.now }
    ensures { result ≡ pairs_below left right (pairs_at bytes.now at 3 n) }
{
    for i in 0..n {
        if left <= records::field_at(bytes, at, 3 + 2 * i) {
            return false;
        }
        if right <= records::field_at(bytes, at, 4 + 2 * i) {
            return false;
        }
    }
    true
}

// ---- the parts of rule 7 that several kinds share

// The input in field k, which is to be below the count.
fn input_at(bytes: &[u8], at: usize, k: usize, count: usize) -> Result<usize, Rule>
    requires { at + 6 + 2 * k ≤ length bytes.now }
    ensures { ReadsInput bytes.now at k count result }
{
    let input = records::field_at(bytes, at, k);
    if count <= input {
        return Err(Rule::WrongField);
    }
    Ok(input)
}

// The two inputs in fields 0 and 1.
fn inputs_at(bytes: &[u8], at: usize, count: usize) -> Result<Inputs, Rule>
    requires { at + 8 ≤ length bytes.now }
    ensures { ReadsInputs bytes.now at count result }
{
    let left = input_at(bytes, at, 0, count)?;
    let right = input_at(bytes, at, 1, count)?;
    Ok(Inputs { left, right })
}

// What both kinds of select have in fields 0 to 2.
#[derive(Clone, Copy)]
struct Selection {
    input: usize,
    column: usize,
    comparison: usize,
}

// A select's input, its column, which is to be below the input's width, and the code of its comparison.
#[tactic(auto, using(crate::proofs::Body::select_tests))]
fn selection_at(bytes: &[u8], at: usize, count: usize, widths: &[usize]) -> Result<Selection, Rule>
    requires { (at + 10 ≤ length bytes.now) × (count ≤ length widths.now) }
    ensures { ReadsSelection (take count widths.now) bytes.now at result }
{
    let input = input_at(bytes, at, 0, count)?;
    let column = records::field_at(bytes, at, 1);
    if widths[input] <= column {
        return Err(Rule::WrongField);
    }
    let comparison = records::field_at(bytes, at, 2);
    Comparison::try_from(comparison)?;
    Ok(Selection {
        input,
        column,
        comparison,
    })
}

// ---- rules 6 and 7, one kind after the other

// Kind 2.
fn read_select_constant(
    bytes: &[u8],
    at: usize,
    count: usize,
    widths: &[usize],
) -> Result<Item, Rule>
    requires { (is_broken bytes.now at ≡ false) × (count ≤ length widths.now) × (kind_at bytes.now at ≡ 2) }
    ensures { ReadsNode (take count widths.now) bytes.now at result }
{
    if records::u16_at(bytes, at) != 14 {
        return Err(Rule::WrongLength);
    }
    let Selection {
        input,
        column,
        comparison,
    } = selection_at(bytes, at, count, widths)?;
    let operand = Operand::Constant(records::u32_at(bytes, at + 10));
    Ok(Item::Node(Node::Select {
        input,
        column,
        comparison,
        operand,
    }))
}

// Kind 3.
fn read_select_column(bytes: &[u8], at: usize, count: usize, widths: &[usize]) -> Result<Item, Rule>
    requires { (is_broken bytes.now at ≡ false) × (count ≤ length widths.now) × (kind_at bytes.now at ≡ 3) }
    ensures { ReadsNode (take count widths.now) bytes.now at result }
{
    if records::u16_at(bytes, at) != 12 {
        return Err(Rule::WrongLength);
    }
    let Selection {
        input,
        column,
        comparison,
    } = selection_at(bytes, at, count, widths)?;
    let other = records::field_at(bytes, at, 3);
    if widths[input] <= other {
        return Err(Rule::WrongField);
    }
    let operand = Operand::Column(other);
    Ok(Item::Node(Node::Select {
        input,
        column,
        comparison,
        operand,
    }))
}

// Rule 6 for a kind with one count, in field k, and so many fields for each counted.
fn counted_shape(bytes: &[u8], at: usize, k: usize, most: usize, each: usize) -> bool
    requires { (is_broken bytes.now at ≡ false) × (k ≤ 2) × (each ≤ 2) }
    ensures { result ≡ counted_shape k most each bytes.now at }
{
    let size = records::u16_at(bytes, at);
    if size < 6 + 2 * k {
        return false;
    }
    let count = records::field_at(bytes, at, k);
    if count < 1 {
        return false;
    }
    if most < count {
        return false;
    }
    size == 6 + 2 * (k + each * count)
}

// Kind 4.
fn read_project(bytes: &[u8], at: usize, count: usize, widths: &[usize]) -> Result<Item, Rule>
    requires { (is_broken bytes.now at ≡ false) × (count ≤ length widths.now) × (kind_at bytes.now at ≡ 4) }
    ensures { ReadsNode (take count widths.now) bytes.now at result }
{
    if !counted_shape(bytes, at, 1, MAX_WIDTH, 1) {
        return Err(Rule::WrongLength);
    }
    let input = input_at(bytes, at, 0, count)?;
    let columns = records::field_at(bytes, at, 1);
    if !columns_below(bytes, at, 2, columns, widths[input]) {
        return Err(Rule::WrongField);
    }
    Ok(Item::Node(Node::Project { input, columns }))
}

// Rule 6 for kind 5.
fn join_shape(bytes: &[u8], at: usize) -> bool
    requires { is_broken bytes.now at ≡ false }
    ensures { result ≡ join_shape bytes.now at }
{
    let size = records::u16_at(bytes, at);
    if size < 10 {
        return false;
    }
    let pairs = records::field_at(bytes, at, 2);
    if MAX_PAIRS < pairs {
        return false;
    }
    if size < 12 + 4 * pairs {
        return false;
    }
    let columns = records::field_at(bytes, at, 3 + 2 * pairs);
    if columns < 1 {
        return false;
    }
    if MAX_WIDTH < columns {
        return false;
    }
    size == 12 + 4 * pairs + 2 * columns
}

// Kind 5.
fn read_join(bytes: &[u8], at: usize, count: usize, widths: &[usize]) -> Result<Item, Rule>
    requires { (is_broken bytes.now at ≡ false) × (count ≤ length widths.now) × Narrow widths.now
        × (kind_at bytes.now at ≡ 5) }
    ensures { ReadsNode (take count widths.now) bytes.now at result }
{
    if !join_shape(bytes, at) {
        return Err(Rule::WrongLength);
    }
    let Inputs { left, right } = inputs_at(bytes, at, count)?;
    let pairs = records::field_at(bytes, at, 2);
    let left_width = widths[left];
    let right_width = widths[right];
    if !pairs_below(bytes, at, pairs, left_width, right_width) {
        return Err(Rule::WrongField);
    }
    let columns = records::field_at(bytes, at, 3 + 2 * pairs);
    if !columns_below(bytes, at, 4 + 2 * pairs, columns, left_width + right_width) {
        return Err(Rule::WrongField);
    }
    Ok(Item::Node(Node::Join {
        left,
        right,
        pairs,
        columns,
    }))
}

// Kinds 6, 7 and 8, by the operation.
fn read_set(
    operation: SetOperation,
    bytes: &[u8],
    at: usize,
    count: usize,
    widths: &[usize],
) -> Result<Item, Rule>
    requires { (is_broken bytes.now at ≡ false) × (count ≤ length widths.now)
        × (kind_at bytes.now at ≡ set_kind operation) }
    ensures { ReadsNode (take count widths.now) bytes.now at result }
{
    if records::u16_at(bytes, at) != 8 {
        return Err(Rule::WrongLength);
    }
    let Inputs { left, right } = inputs_at(bytes, at, count)?;
    if widths[left] != widths[right] {
        return Err(Rule::WrongField);
    }
    Ok(Item::Node(Node::Set {
        operation,
        left,
        right,
    }))
}

// Kind 10.
fn read_no_match(bytes: &[u8], at: usize, count: usize, widths: &[usize]) -> Result<Item, Rule>
    requires { (is_broken bytes.now at ≡ false) × (count ≤ length widths.now) × (kind_at bytes.now at ≡ 10) }
    ensures { ReadsNode (take count widths.now) bytes.now at result }
{
    if !counted_shape(bytes, at, 2, MAX_PAIRS, 2) {
        return Err(Rule::WrongLength);
    }
    let Inputs { left, right } = inputs_at(bytes, at, count)?;
    let pairs = records::field_at(bytes, at, 2);
    if !pairs_below(bytes, at, pairs, widths[left], widths[right]) {
        return Err(Rule::WrongField);
    }
    Ok(Item::Node(Node::NoMatch { left, right, pairs }))
}

// The record of a derived node, by its kind.
pub fn read_derived(
    kind: Kind,
    bytes: &[u8],
    at: usize,
    count: usize,
    widths: &[usize],
) -> Result<Item, Rule>
    requires { (2 ≤ kind_number kind) × (kind_number kind ≡ 9 → ⊥) × (kind_at bytes.now at ≡ kind_number kind)
        × (is_broken bytes.now at ≡ false) × (count ≤ length widths.now) × Narrow widths.now }
    ensures { ReadsNode (take count widths.now) bytes.now at result }
{
    match kind {
        Kind::SelectConstant => read_select_constant(bytes, at, count, widths),
        Kind::SelectColumn => read_select_column(bytes, at, count, widths),
        Kind::Project => read_project(bytes, at, count, widths),
        Kind::Join => read_join(bytes, at, count, widths),
        Kind::Union => read_set(SetOperation::Union, bytes, at, count, widths),
        Kind::Difference => read_set(SetOperation::Difference, bytes, at, count, widths),
        Kind::Intersection => read_set(SetOperation::Intersection, bytes, at, count, widths),
        Kind::NoMatch => read_no_match(bytes, at, count, widths),
        Kind::Table | Kind::Watch => unreachable!(),
    }
}
