// Scripts of calls. An operation is a byte for its kind, a byte for an area, 2 bytes
// and 4 bytes for its numbers, 2 bytes for the length of its text, the text.
ghost use Rattle.std.specs.Prelude.{◌≡◌, ◌<◌, length, set};
ghost use Rattle.test_calls.specs.Script.{ReadsOperation, kind_of, area_of};

// What an operation does: text to print, the network, a word of an area, a call, the bytes that are lent for a report,
// a call with an area too short, a batch, the lent bytes set to 0.
#[derive(Clone, Copy, PartialEq, Eq)]
pub enum Kind {
    Name,
    Network,
    Word,
    Open,
    Check,
    Report,
    Values,
    ShortRows,
    ShortGained,
    ShortLost,
    ShortHead,
    Batch,
    Clear,
}

// The kinds' numbers; any other clears.
impl From<u8> for Kind {
    ghost from_gives = { λ number kind. kind ≡ kind_of number };

    fn from(number: u8) -> Kind {
        match number {
            1 => Kind::Name,
            2 => Kind::Network,
            3 => Kind::Word,
            4 => Kind::Open,
            5 => Kind::Check,
            6 => Kind::Report,
            7 => Kind::Values,
            8 => Kind::ShortRows,
            9 => Kind::ShortGained,
            10 => Kind::ShortLost,
            11 => Kind::ShortHead,
            12 => Kind::Batch,
            _ => Kind::Clear,
        }
    }
}

// An area.
#[derive(Clone, Copy)]
pub enum Area {
    Rows,
    Gained,
    Lost,
    Head,
}

// The areas' numbers; any other is the head's.
impl From<u8> for Area {
    ghost from_gives = { λ number area. area ≡ area_of number };

    fn from(number: u8) -> Area {
        match number {
            0 => Area::Rows,
            1 => Area::Gained,
            2 => Area::Lost,
            _ => Area::Head,
        }
    }
}

// An operation, and where its text begins and ends.
#[derive(Clone, Copy)]
pub struct Operation {
    pub kind: Kind,
    pub area: Area,
    pub index: usize,
    pub value: u32,
    pub from: usize,
    pub next: usize,
}

// The operation at an offset; one that clears, without a text, where the bytes end before it does.
pub(crate) fn operation_at(bytes: &[u8], at: usize) -> Operation
    requires { at < length bytes.now }
    ensures { ReadsOperation bytes.now at result }
{
    let end = bytes.len();
    let none = Operation {
        kind: Kind::Clear,
        area: Area::Rows,
        index: 0,
        value: 0,
        from: end,
        next: end,
    };
    if end - at < 10 {
        return none;
    }
    let from = at + 10;
    let next = from + records::u16_at(bytes, at + 8);
    if end < next {
        return none;
    }
    Operation {
        kind: Kind::from(bytes[at]),
        area: Area::from(bytes[at + 1]),
        index: records::u16_at(bytes, at + 2),
        value: records::u32_at(bytes, at + 4),
        from,
        next,
    }
}

// A word set, if it is there: nothing is printed.
pub(crate) fn store(words: &mut [u32], index: usize, value: u32) -> usize
    ensures stored { words.new ≡ set words.old index value }
    ensures nothing { result ≡ 0 }
{
    if index < words.len() {
        words[index] = value;
    }
    0
}
