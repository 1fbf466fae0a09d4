// Where the station program stands, and what a step of it says.

#![tactic(auto)]

ghost use Rattle.std.specs.Prelude.{◌≡◌, ◌<◌};
ghost use Rattle.stages.specs.declared.Stage.TheVariants.{Begin, Cut, Tell};
ghost use Rattle.stages.specs.Stages.{files, has_input, is_over};

// The most bytes of a file.
const MAX_FILE: usize = 65536;

// Where the program stands: before everything; at the piece of the file that starts at an offset; at a node's lines of
// the batch just applied, and then the piece that starts at an offset; at the end.
#[derive(Clone, Copy)]
pub enum Stage {
    Begin,
    Cut(usize),
    Tell(usize, usize),
    End,
}

// How many bytes a step wrote, and where the program then stands.
#[derive(Clone, Copy)]
pub struct Said {
    pub size: usize,
    pub stage: Stage,
}

// Whether the program is over.
pub fn is_over(stage: Stage) -> bool
    ensures { result ≡ is_over stage }
{
    matches!(stage, Stage::End)
}

// Whether both files, the network's (n) and that of the batches (b), are there and of at most 65,536 bytes.
pub fn has_input(n: bool, b: bool, net: &[u8], file: &[u8]) -> bool
    ensures { result ≡ has_input (files n b net.now file.now) }
{
    n && b && net.len() <= MAX_FILE && file.len() <= MAX_FILE
}
