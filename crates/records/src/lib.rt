// Records in bytes: little-endian numbers, and the header that networks, batches and the station's file share.

#![tactic(auto)]

ghost use Rattle.std.specs.Prelude.{◌≡◌, ◌+◌, ◌*◌, ◌≤◌, length};
ghost use Rattle.model.specs.Record.{u32, is_broken};
ghost use Rattle.records.specs.Actions.{action_number, IsAction};
ghost use Rattle.records.specs.Numbers.{Is16};

use verdicts::Rule;

// The kinds of events, and how many a batch may have.
pub const PUT: usize = 32;

pub const REMOVE: usize = 33;

pub const MAX_EVENTS: usize = 64;

// What an event does with its row.
#[derive(Clone, Copy, PartialEq, Eq)]
pub enum Action {
    Put,
    Remove,
}

impl Action {
    // The number of its kind.
    pub fn number(self) -> usize
        ensures { result ≡ action_number self }
    {
        match self {
            Action::Put => PUT,
            Action::Remove => REMOVE,
        }
    }
}

impl TryFrom<usize> for Action {
    type Error = Rule;

    ghost try_from_gives = { IsAction };

    // The action of a kind: rule 11.
    fn try_from(kind: usize) -> Result<Self, Rule> {
        match kind {
            PUT => Ok(Action::Put),
            REMOVE => Ok(Action::Remove),
            _ => Err(Rule::UnknownEvent),
        }
    }
}

// The 2-byte number at an offset.
pub fn u16_at(bytes: &[u8], at: usize) -> usize
    requires { at + 2 ≤ length bytes.now }
    ensures { Is16 bytes.now at result }
{
    usize::from(u16::from_le_bytes([bytes[at], bytes[at + 1]]))
}

// Field k of the record at an offset.
pub fn field_at(bytes: &[u8], at: usize, k: usize) -> usize
    requires { at + 4 + 2 * k + 2 ≤ length bytes.now }
    ensures { Is16 bytes.now (at + 4 + 2 * k) result }
{
    u16_at(bytes, at + 4 + 2 * k)
}

// The 4-byte number at an offset.
pub fn u32_at(bytes: &[u8], at: usize) -> u32
    requires { at + 4 ≤ length bytes.now }
    ensures { result ≡ u32 bytes.now at }
{
    u32::from_le_bytes([bytes[at], bytes[at + 1], bytes[at + 2], bytes[at + 3]])
}

// Whether 1 to 3 bytes remain from an offset, or the length there is below 4 or beyond the end.
pub fn is_broken(bytes: &[u8], at: usize) -> bool
    requires { at ≤ length bytes.now }
    ensures { result ≡ is_broken bytes.now at }
{
    let rest = bytes.len() - at;
    if rest < 4 {
        return true;
    }
    let size = u16_at(bytes, at);
    if size < 4 {
        return true;
    }
    rest < size
}
