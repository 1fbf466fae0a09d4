// The reader: what it answers of a network's bytes.

#![tactic(auto)]

ghost use Rattle.std.specs.Prelude.{◌≡◌, map};
ghost use Rattle.model.specs.Network.{kind_of};
ghost use Rattle.model.specs.Areas.{padded};
ghost use Rattle.model.specs.Calls.{read_call};
ghost use Rattle.model.specs.Row.{max_nodes};
ghost use Rattle.network.specs.Reading.{Built, nodes_of};
ghost use Rattle.reader.specs.Answer.{answer_of};

use network::Network;
use rows::MAX_NODES;
use verdicts::Refusal;

// What the reader answers: the node count, each node's kind, width and level, 0 past the last.
#[derive(Clone, Copy)]
pub struct Answer {
    pub count: usize,
    pub kinds: [usize; MAX_NODES],
    pub widths: [usize; MAX_NODES],
    pub levels: [usize; MAX_NODES],
}

// The numbers of the nodes' kinds, then zeros.
fn kinds_of(net: &Network) -> [usize; MAX_NODES]
    requires { Built net.now }
    ensures { result ≡ padded max_nodes (map kind_of (nodes_of net.now)) }
{
    let mut kinds = [0usize; MAX_NODES];
    for i in 0..net.count {
        kinds[i] = nodes::parts_of(net.slots[i].node).kind.number();
    }
    kinds
}

// The reader: refusals 2 to 7, or what it answers.
pub fn read(bytes: &[u8]) -> Result<Answer, Refusal>
    ensures answers { answer_of result ≡ read_call bytes.now }
{
    let network = network::read_network(bytes)?;
    Ok(Answer {
        count: network.count,
        kinds: kinds_of(&network),
        widths: network.widths,
        levels: network.levels,
    })
}
