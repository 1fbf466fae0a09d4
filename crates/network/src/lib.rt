// Networks read from bytes: refusals 2 to 7.

#![tactic(auto)]

ghost use Rattle.std.specs.Prelude.{◌≡◌, ℕ, ◌+◌, ◌*◌, ◌≤◌, ◌<◌, max, length, get_or, take};
ghost use Rattle.model.specs.Network.{no_network, node_item};
ghost use Rattle.model.specs.Record.{fields_at};
ghost use Rattle.model.specs.Areas.{padded};
ghost use Rattle.model.specs.Row.{max_nodes};
ghost use Rattle.nodes.specs.Nodes.{lists_of};
ghost use Rattle.derived_records.specs.Bodies.{node_in_record, ListsFit, NodeFits};
ghost use Rattle.network.specs.Reading.{ReadsNetwork, Built, Extends, network_of};
ghost use Rattle.network.specs.Reading.{slot_node, Shaped, InputsBelow, WidthIs, LevelIs};

use nodes::{Item, MAX_PAIRS, Node};
use rows::{MAX_NODES, MAX_WIDTH};
use verdicts::{Refusal, Rule};

// A node with its columns, and its pairs as left and right columns in turn.
#[derive(Clone, Copy)]
pub struct Slot {
    pub node: Node,
    pub columns: [u16; MAX_WIDTH],
    pub pairs: [u16; 2 * MAX_PAIRS],
}

// The nodes in order of their records, with each node's width and level, and its watch's sign (0: no watch) and
// priority.
#[derive(Clone, Copy)]
pub struct Network {
    pub count: usize,
    pub slots: [Slot; MAX_NODES],
    pub widths: [usize; MAX_NODES],
    pub levels: [usize; MAX_NODES],
    pub signs: [u8; MAX_NODES],
    pub priorities: [u8; MAX_NODES],
}

// ---- building the network

// n fields of the record from field k on, then zeros.
fn fields_of<const N: usize>(bytes: &[u8], at: usize, k: usize, n: usize) -> [u16; N]
    requires { (1 ≤ n → at + 4 + 2 * k + 2 * n ≤ length bytes.now) × (n ≤ N) }
    ensures { result ≡ padded N (fields_at bytes.now at k n) }
{
    let mut fields = [0u16; N];
    for i in 0..n {
        fields[i] = records::field_at(bytes, at, k + i) as u16;
    }
    fields
}

// A node with its lists, read from its record.
fn slot_at(bytes: &[u8], at: usize, node: Node) -> Slot
    requires { ListsFit (lists_of node) bytes.now at }
    ensures brings { slot_node result ≡ node_in_record node bytes.now at }
    ensures shaped { Shaped result }
{
    let parts = nodes::parts_of(node);
    let pairs = fields_of(bytes, at, 3, 2 * parts.pairs);
    let columns = fields_of(bytes, at, parts.from + 2 * parts.pairs, parts.columns);
    Slot {
        node,
        columns,
        pairs,
    }
}

// A node's width, from the widths of the nodes before it.
fn width_of(node: Node, widths: &[usize]) -> usize
    requires { InputsBelow node (length widths.now) }
    ensures { WidthIs node widths.now result }
{
    let parts = nodes::parts_of(node);
    let first = match parts.inputs {
        Some(inputs) => widths[inputs.left],
        None => 0,
    };
    parts.width.unwrap_or(first)
}

// The greater of two numbers: std's `max`, under the name that other crates call.
pub fn greater(a: usize, b: usize) -> usize
    ensures { result ≡ max a b }
{
    a.max(b)
}

// A node's level, from the levels of the nodes before it.
fn level_of(node: Node, levels: &[usize]) -> usize
    requires { InputsBelow node (length levels.now) × ((i : ℕ) → get_or levels.now i 0 ≤ i)
        × (length levels.now ≤ max_nodes) }
    ensures { LevelIs node levels.now result }
{
    match nodes::parts_of(node).inputs {
        Some(inputs) => greater(levels[inputs.left], levels[inputs.right]) + 1,
        None => 0,
    }
}

// A network with no node.
fn no_network() -> Network
    ensures built { Built result }
    ensures empty { network_of result ≡ no_network }
{
    let slot = Slot {
        node: Node::Table { width: 0 },
        columns: [0u16; MAX_WIDTH],
        pairs: [0u16; 2 * MAX_PAIRS],
    };
    Network {
        count: 0,
        slots: [slot; MAX_NODES],
        widths: [0usize; MAX_NODES],
        levels: [0usize; MAX_NODES],
        signs: [0u8; MAX_NODES],
        priorities: [0u8; MAX_NODES],
    }
}

// Adds the node of the record at an offset, with its width and its level.
fn add_node(net: &mut Network, bytes: &[u8], at: usize, node: Node)
    requires { Built net.old × (net.old.count < max_nodes)
        × NodeFits node (take net.old.count net.old.widths) bytes.now at }
    ensures { Extends net.old (node_item (node_in_record node bytes.now at)) net.new }
{
    let count = net.count;
    let slot = slot_at(bytes, at, node);
    let width = width_of(node, &net.widths);
    let level = level_of(node, &net.levels);
    net.slots[count] = slot;
    net.widths[count] = width;
    net.levels[count] = level;
    net.count = count + 1;
}

// A network from its bytes: refusals 2 to 7. It is built in place, so that no record copies it.
pub fn read_network(bytes: &[u8]) -> Result<Network, Refusal>
    ensures reads { ReadsNetwork bytes.now result }
{
    if bytes.is_empty() {
        return Err(Rule::EmptyNetwork.at(0));
    }
    let mut net = no_network();
    let mut at = 0;
    while at < bytes.len() {
        let here = at;
        let reading = node_records::read_record(bytes, here, net.count, &net.widths, &net.signs);
        // The order asks for `let .. else` here.
        let Ok(item) = reading else {
            return Err(reading.unwrap_err().at(here));
        };
        at = here + records::u16_at(bytes, here);
        match item {
            Item::Node(node) => add_node(&mut net, bytes, here, node),
            Item::Watch {
                node,
                sign,
                priority,
            } => {
                net.signs[node] = sign;
                net.priorities[node] = priority;
            }
        }
    }
    Ok(net)
}
