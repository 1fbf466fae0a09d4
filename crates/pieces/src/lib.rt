// A file of batches, cut at its marks.

#![tactic(auto)]

ghost use Rattle.std.specs.Prelude.{◌≡◌, ◌+◌, ◌≤◌, length};
ghost use Rattle.model.specs.Text.{is_mark};
ghost use Rattle.pieces.specs.Pieces.{Next};

// The mark's length and kind.
const MARK_SIZE: usize = 4;

const MARK: usize = 34;

// What comes next in a file: a batch that ends at the mark with an offset, a broken length at an offset from the
// batch's first byte, whole records without a mark, or nothing.
#[derive(Clone, Copy)]
pub enum Piece {
    Batch(usize),
    Broken(usize),
    Unfinished,
    End,
}

// Whether a whole record is the mark that ends a batch.
fn is_mark(file: &[u8], at: usize) -> bool
    requires { at + 4 ≤ length file.now }
    ensures { result ≡ is_mark file.now at }
{
    records::u16_at(file, at) == MARK_SIZE && records::u16_at(file, at + 2) == MARK
}

// The piece of a file that starts at an offset, past the end none: the mark is looked for by record lengths.
pub fn next_piece(file: &[u8], start: usize) -> Piece
    ensures { Next file.now start result }
{
    let mut at = start;
    while at < file.len() {
        let here = at;
        if records::is_broken(file, here) {
            return Piece::Broken(here - start);
        }
        if is_mark(file, here) {
            return Piece::Batch(here);
        }
        at = here + records::u16_at(file, here);
    }
    if start < file.len() {
        Piece::Unfinished
    } else {
        Piece::End
    }
}
