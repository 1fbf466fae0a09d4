// The records of a network: rules 3 to 7 on each, by its kind.

#![tactic(auto)]

ghost use Rattle.std.specs.Prelude.{◌≡◌, false, List, ℕ, ◌≤◌, length, take};
ghost use Rattle.model.specs.Record.{is_broken, kind_at};
ghost use Rattle.nodes.specs.Nodes.{kind_number};
ghost use Rattle.model.specs.Network.{watch_shape, priority_at};
ghost use Rattle.model.specs.Row.{Narrow};
ghost use Rattle.derived_records.specs.Bodies.{ReadsBody};
ghost use Rattle.node_records.specs.NodeRecords.{ReadsRecord};

use derived_records::KINDS;
use nodes::{Item, Kind, Node};
use rows::{MAX_NODES, MAX_WIDTH};
use verdicts::Rule;

// The highest priority number of a watch.
const MAX_PRIORITY: usize = 9;

// Kind 1.
fn read_table(bytes: &[u8], at: usize) -> Result<Item, Rule>
    requires { is_broken bytes.now at ≡ false }
    ensures { (ws signs : List ℕ) → ReadsBody ws signs 1 bytes.now at result }
{
    if records::u16_at(bytes, at) != 6 {
        return Err(Rule::WrongLength);
    }
    let width = records::field_at(bytes, at, 0);
    if width < 1 {
        return Err(Rule::WrongField);
    }
    if MAX_WIDTH < width {
        return Err(Rule::WrongField);
    }
    Ok(Item::Node(Node::Table { width }))
}

// Whether a watch's record has its length, with a priority or without.
fn watch_shape(bytes: &[u8], at: usize) -> bool
    requires { is_broken bytes.now at ≡ false }
    ensures { result ≡ watch_shape bytes.now at }
{
    let size = records::u16_at(bytes, at);
    if size == 8 {
        return true;
    }
    size == 10
}

// The priority at the end of a watch's record, 0 if it has none.
fn priority_at(bytes: &[u8], at: usize) -> usize
    requires { is_broken bytes.now at ≡ false }
    ensures { result ≡ priority_at bytes.now at }
{
    if records::u16_at(bytes, at) == 10 {
        return records::field_at(bytes, at, 2);
    }
    0
}

// Kind 9.
fn read_watch(bytes: &[u8], at: usize, count: usize, signs: &[u8]) -> Result<Item, Rule>
    requires { (is_broken bytes.now at ≡ false) × (count ≤ length signs.now) }
    ensures { (ws : List ℕ) → ReadsBody ws (take count signs.now) 9 bytes.now at result }
{
    if !watch_shape(bytes, at) {
        return Err(Rule::WrongLength);
    }
    let node = records::field_at(bytes, at, 0);
    if count <= node {
        return Err(Rule::WrongField);
    }
    let sign = records::field_at(bytes, at, 1);
    if sign < 1 {
        return Err(Rule::WrongField);
    }
    if 3 < sign {
        return Err(Rule::WrongField);
    }
    if signs[node] != 0 {
        return Err(Rule::WrongField);
    }
    let priority = priority_at(bytes, at);
    if MAX_PRIORITY < priority {
        return Err(Rule::WrongField);
    }
    Ok(Item::Watch {
        node,
        sign: sign as u8,
        priority: priority as u8,
    })
}

// A record of a known kind: rules 5 to 7 in order.
fn read_kind<'a>(
    kind: Kind,
    bytes: &'a [u8],
    at: usize,
    count: usize,
    widths: &'a [usize],
    signs: &'a [u8],
) -> Result<Item, Rule>
    requires { (kind_number kind ≡ kind_at bytes.now at) × (is_broken bytes.now at ≡ false)
        × (count ≤ length widths.now) × (count ≤ length signs.now) × Narrow widths.now }
    ensures { ReadsRecord (take count widths.now) (take count signs.now)
        bytes.now at result }
{
    if kind == Kind::Watch {
        return read_watch(bytes, at, count, signs);
    }
    if MAX_NODES <= count {
        return Err(Rule::TooManyNodes);
    }
    if kind == Kind::Table {
        return read_table(bytes, at);
    }
    derived_records::read_derived(kind, bytes, at, count, widths)
}

// The record at an offset, after so many nodes: rules 3 to 7 in order.
pub fn read_record<'a>(
    bytes: &'a [u8],
    at: usize,
    count: usize,
    widths: &'a [usize],
    signs: &'a [u8],
) -> Result<Item, Rule>
    requires { (at ≤ length bytes.now) × (count ≤ length widths.now) × (count ≤ length signs.now)
        × Narrow widths.now }
    ensures { ReadsRecord (take count widths.now) (take count signs.now)
        bytes.now at result }
{
    if records::is_broken(bytes, at) {
        return Err(Rule::BrokenRecord);
    }
    let number = records::u16_at(bytes, at + 2);
    // The order asks for this match on the kind's number with a range.
    match number {
        1..=KINDS => read_kind(Kind::try_from(number)?, bytes, at, count, widths, signs),
        _ => Err(Rule::UnknownKind),
    }
}
