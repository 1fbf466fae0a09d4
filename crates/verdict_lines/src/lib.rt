// The station program's lines of a verdict, an accepted batch's number or a refusal, written into lent bytes.

#![tactic(auto)]

ghost use Rattle.std.specs.Prelude.{◌∷◌, [], ◌≤◌, length};
ghost use Rattle.model.specs.Text.{line, batch_word, refused_line};
ghost use Rattle.lines.specs.Written.{Put, PutIfRoom};
ghost use Rattle.verdict_lines.specs.Lines.{batch_room, refused_room};

// The most bytes of a refusal's line.
const LINE: usize = 50;

// The line of an accepted batch's number from the first byte on: its length.
pub fn put_batch(out: &mut [u8], number: usize) -> usize
    requires { batch_room ≤ length out.old }
    ensures { Put (line batch_word (number ∷ [])) batch_room 0 out.old out.new result }
{
    lines::put_line_at(out, 0, b"batch", &[number])
}

// The line of a refusal from the first byte on: its length. Where there is no room for the longest one nothing is
// written, and the answer is 0.
pub fn put_refused(out: &mut [u8], number: usize, place: usize) -> usize
    ensures { PutIfRoom (refused_line number place) refused_room out.old out.new result }
{
    if out.len() < LINE {
        0
    } else {
        lines::put_line_at(out, 0, b"refused", &[number, place])
    }
}
