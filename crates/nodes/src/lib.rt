// Nodes, what a record brings, and what goes by a node's kind but for its rows.

#![tactic(auto)]

ghost use Rattle.std.specs.Prelude.{◌≡◌, true};
ghost use Rattle.nodes.specs.Nodes.{select_kind, set_kind, PartsAre, kind_number, code_of, IsKind, IsComparison};

use verdicts::Rule;

// The most pairs of a join and of a no match.
pub const MAX_PAIRS: usize = 2;

// The kinds of records, in the order of their numbers.
#[derive(Clone, Copy, PartialEq, Eq)]
pub enum Kind {
    Table,
    SelectConstant,
    SelectColumn,
    Project,
    Join,
    Union,
    Difference,
    Intersection,
    Watch,
    NoMatch,
}

impl Kind {
    // The kind's number.
    pub fn number(self) -> usize
        ensures { result ≡ kind_number self }
    {
        match self {
            Kind::Table => 1,
            Kind::SelectConstant => 2,
            Kind::SelectColumn => 3,
            Kind::Project => 4,
            Kind::Join => 5,
            Kind::Union => 6,
            Kind::Difference => 7,
            Kind::Intersection => 8,
            Kind::Watch => 9,
            Kind::NoMatch => 10,
        }
    }
}

impl TryFrom<usize> for Kind {
    type Error = Rule;

    ghost try_from_gives = { IsKind };

    // The kind of a number: rule 4.
    fn try_from(number: usize) -> Result<Self, Rule> {
        match number {
            1 => Ok(Kind::Table),
            2 => Ok(Kind::SelectConstant),
            3 => Ok(Kind::SelectColumn),
            4 => Ok(Kind::Project),
            5 => Ok(Kind::Join),
            6 => Ok(Kind::Union),
            7 => Ok(Kind::Difference),
            8 => Ok(Kind::Intersection),
            9 => Ok(Kind::Watch),
            10 => Ok(Kind::NoMatch),
            _ => Err(Rule::UnknownKind),
        }
    }
}

// How a select compares, in the order of the codes.
#[derive(Clone, Copy, PartialEq, Eq)]
pub enum Comparison {
    Equal,
    Unequal,
    Less,
    AtMost,
    Greater,
    AtLeast,
}

impl Comparison {
    // The comparison's code.
    pub fn number(self) -> usize
        ensures { result ≡ code_of self }
    {
        match self {
            Comparison::Equal => 0,
            Comparison::Unequal => 1,
            Comparison::Less => 2,
            Comparison::AtMost => 3,
            Comparison::Greater => 4,
            Comparison::AtLeast => 5,
        }
    }
}

impl TryFrom<usize> for Comparison {
    type Error = Rule;

    ghost try_from_gives = { IsComparison };

    // The comparison of a code: a part of rule 7.
    fn try_from(code: usize) -> Result<Self, Rule> {
        match code {
            0 => Ok(Comparison::Equal),
            1 => Ok(Comparison::Unequal),
            2 => Ok(Comparison::Less),
            3 => Ok(Comparison::AtMost),
            4 => Ok(Comparison::Greater),
            5 => Ok(Comparison::AtLeast),
            _ => Err(Rule::WrongField),
        }
    }
}

// What a select compares its column with.
#[derive(Clone, Copy)]
pub enum Operand {
    Constant(u32),
    Column(usize),
}

// Kinds 6, 7 and 8.
#[derive(Clone, Copy)]
pub enum SetOperation {
    Union,
    Difference,
    Intersection,
}

// A node's inputs and numbers; its columns and pairs stand in arrays beside it.
#[derive(Clone, Copy)]
pub enum Node {
    Table {
        width: usize,
    },
    Select {
        input: usize,
        column: usize,
        // The code of a comparison; a number, since parts_of answers for any.
        comparison: usize,
        operand: Operand,
    },
    Project {
        input: usize,
        columns: usize,
    },
    Join {
        left: usize,
        right: usize,
        pairs: usize,
        columns: usize,
    },
    Set {
        operation: SetOperation,
        left: usize,
        right: usize,
    },
    NoMatch {
        left: usize,
        right: usize,
        pairs: usize,
    },
}

// What a record brings: a node, or a watch's node, sign and priority.
#[derive(Clone, Copy)]
pub enum Item {
    Node(Node),
    Watch { node: usize, sign: u8, priority: u8 },
}

// ---- what goes by a node's kind, but for its rows

// The nodes that a node uses, both the only one if there is one.
#[derive(Clone, Copy)]
pub struct Inputs {
    pub left: usize,
    pub right: usize,
}

// A node's kind, inputs, width and lists.
#[derive(Clone, Copy)]
pub struct Parts {
    pub kind: Kind,
    // None for a table.
    pub inputs: Option<Inputs>,
    // Its own width, or none where it has its first input's.
    pub width: Option<usize>,
    // How many pairs and columns its record has: the pairs from field 3 on, the columns behind them from a field on.
    pub pairs: usize,
    pub columns: usize,
    pub from: usize,
}

// The kind of a select.
fn select_kind(operand: Operand) -> Kind
    ensures { kind_number result ≡ select_kind operand }
{
    match operand {
        Operand::Constant(_) => Kind::SelectConstant,
        Operand::Column(_) => Kind::SelectColumn,
    }
}

// The kind of a set operation.
fn set_kind(operation: SetOperation) -> Kind
    ensures { kind_number result ≡ set_kind operation }
{
    match operation {
        SetOperation::Union => Kind::Union,
        SetOperation::Difference => Kind::Difference,
        SetOperation::Intersection => Kind::Intersection,
    }
}

// The parts of a node with inputs and with its first input's width, which has no columns.
fn derived(kind: Kind, left: usize, right: usize, pairs: usize) -> Parts
    ensures { result ≡ record {
      kind = kind;
      inputs = Some (record { left = left; right = right });
      width = None;
      pairs = pairs;
      columns = 0;
      from = 0;
    } }
{
    Parts {
        kind,
        inputs: Some(Inputs { left, right }),
        width: None,
        pairs,
        columns: 0,
        from: 0,
    }
}

// The parts of a node with inputs and columns: it is as wide as it has columns.
fn with_columns(
    kind: Kind,
    left: usize,
    right: usize,
    pairs: usize,
    columns: usize,
    from: usize,
) -> Parts
    ensures { result ≡ record {
      kind = kind;
      inputs = Some (record { left = left; right = right });
      width = Some columns;
      pairs = pairs;
      columns = columns;
      from = from;
    } }
{
    Parts {
        width: Some(columns),
        columns,
        from,
        ..derived(kind, left, right, pairs)
    }
}

// The parts of a node, by its kind.
pub fn parts_of(node: Node) -> Parts
    ensures { PartsAre node result }
{
    match node {
        Node::Table { width } => Parts {
            kind: Kind::Table,
            inputs: None,
            width: Some(width),
            pairs: 0,
            columns: 0,
            from: 0,
        },
        Node::Select { input, operand, .. } => derived(select_kind(operand), input, input, 0),
        Node::Project { input, columns } => with_columns(
            Kind::Project,
            input,
            input,
            0,
            columns,
            2,
        ),
        Node::Join {
            left,
            right,
            pairs,
            columns,
        } => with_columns(Kind::Join, left, right, pairs, columns, 4),
        Node::Set {
            operation,
            left,
            right,
        } => derived(set_kind(operation), left, right, 0),
        Node::NoMatch { left, right, pairs } => derived(Kind::NoMatch, left, right, pairs),
    }
}
