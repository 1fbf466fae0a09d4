// The tables that a batch's events name.

#![tactic(auto)]

ghost use Rattle.std.specs.Prelude.{◌≡◌, false, replicate};
ghost use Rattle.model.specs.Row.{max_nodes};
ghost use Rattle.model.specs.Record.{offsets};
ghost use Rattle.named_tables.specs.Named.{NamesNodes, named_marks};

use rows::MAX_NODES;

// For each node number whether an event of a batch names it.
pub fn named_nodes(bytes: &[u8]) -> [bool; MAX_NODES]
    requires { NamesNodes bytes.now (offsets bytes.now) }
    ensures marks { result ≡ named_marks bytes.now (offsets bytes.now)
        (replicate max_nodes false) }
{
    let mut named = [false; MAX_NODES];
    let mut at = 0;
    while at < bytes.len() {
        let here = at;
        let table = records::field_at(bytes, here, 0);
        named[table] = true;
        at = here + records::u16_at(bytes, here);
    }
    named
}
