// The station program: reads network.bin and batch.bin of the folder that it runs in, and prints what each batch gave.
// What it prints comes from `program::step`; here files are opened and read, and what a step wrote is handed to the
// system.

#![tactic(auto)]

ghost use Rattle.std.specs.Prelude.{◌≡◌, true, ◌≤◌, length, IfSome};
ghost use Rattle.std.specs.IoError.{error_kind};
ghost use Rattle.model.specs.Areas.{layout, long_enough};
ghost use Rattle.areas.specs.Lent.{lent};
ghost use Rattle.station_lines.specs.Lines.{node_room};
ghost use Rattle.stages.specs.Stages.{files};
ghost use Rattle.station.specs.Moves.{Told, Wrote, may_pass};

use areas::{AREA, HEAD};
use stages::Stage;
use std::fs::File;
use std::io::{Error, ErrorKind, Read, Stdout, Write};
use std::rt::Files;
use std::thread;

// One byte more than a file may have.
const ABOVE: usize = 65537;

// How often a call that moved nothing is tried again: it was interrupted, or a pipe that does not wait was full.
const TRIES: usize = 10000000;

// A run that stopped: how many bytes the system took before it did, and the last failure of a write, also of one that was
// tried again; none where a write took no byte and none had failed.
#[derive(Clone, Copy)]
pub struct Stopped {
    told: usize,
    reason: Option<Error>,
}

// Whether a call that failed may succeed if it is tried again: it was interrupted, or a pipe that does not wait was
// full, and then others get their turn first.
fn may_pass(error: &Error) -> bool
    ensures { result ≡ may_pass (error_kind error.now) }
{
    match error.kind() {
        ErrorKind::Interrupted => true,
        ErrorKind::WouldBlock => {
            thread::yield_now();
            true
        }
        _ => false,
    }
}

// Reads until the file ends or there is no room left: how many bytes. A read that fails is not the end of the file:
// then the file counts as missing. (std's read_to_end wants a Vec, and there is no heap.)
fn read_all(file: &mut File, bytes: &mut [u8]) -> Option<usize>
    ensures { IfSome result (λ n. n ≤ length bytes.old) }
{
    let mut at = 0;
    let mut tries = TRIES;
    while at < bytes.len() {
        let from = at;
        match file.read(&mut bytes[from..]) {
            Ok(0) => {
                return Some(from);
            }
            Ok(n) => {
                at = from + n;
            }
            Err(error) => {
                if !may_pass(&error) || tries == 0 {
                    return None;
                }
                tries -= 1;
            }
        }
    }
    Some(at)
}

// How many bytes a file has, as far as there is room for them; none where it is missing or cannot be read. An open that
// was interrupted is tried again.
fn read_file<R: Files<File = File>>(rt: &R, path: &str, bytes: &mut [u8]) -> Option<usize>
    ensures { IfSome result (λ n. n ≤ length bytes.old) }
{
    for _ in 0..TRIES {
        match File::open(rt, path) {
            Ok(mut file) => {
                return read_all(&mut file, bytes);
            }
            Err(error) => {
                if error.kind() != ErrorKind::Interrupted {
                    return None;
                }
            }
        }
    }
    None
}

// Writes all of the bytes to standard output: how many, or how many fewer the system took, and why. The last failure of
// a write in the run is kept. (std's write_all gives up at a pipe that is full, and does not say how much was taken.)
fn write_out(out: &mut Stdout, bytes: &[u8], last: &mut Option<Error>) -> Result<usize, Stopped>
    ensures { Wrote (length bytes.now) result }
{
    let mut at = 0;
    let mut tries = TRIES;
    while at < bytes.len() {
        let from = at;
        match out.write(&bytes[from..]) {
            Ok(0) => {
                return Err(Stopped {
                    told: from,
                    reason: *last,
                });
            }
            Ok(n) => {
                at = from + n;
            }
            Err(error) => {
                *last = Some(error);
                if !may_pass(&error) || tries == 0 {
                    return Err(Stopped {
                        told: from,
                        reason: Some(error),
                    });
                }
                tries -= 1;
            }
        }
    }
    Ok(at)
}

// The steps from the beginning to the end: how many bytes the system took. Where a write fails it stops.
fn run(
    output: &mut Stdout,
    n: bool,
    b: bool,
    net: &[u8],
    file: &[u8],
    rows: &mut [u32],
    gained: &mut [u32],
    lost: &mut [u32],
    head: &mut [u32],
    out: &mut [u8],
) -> Result<usize, Stopped>
    requires { (long_enough layout (lent rows.old gained.old lost.old head.old) ≡ true)
        × (length file.now ≤ 65537)
        × (length out.old ≡ node_room) }
    ensures { Told (files n b net.now file.now) result }
{
    let mut told = 0;
    let mut last = None;
    let mut stage = Stage::Begin;
    while !stages::is_over(stage) {
        let said = program::step(n, b, net, file, stage, rows, gained, lost, head, out);
        match write_out(output, &out[..said.size], &mut last) {
            Ok(taken) => {
                told += taken;
            }
            Err(stopped) => {
                return Err(Stopped {
                    told: told + stopped.told,
                    reason: stopped.reason,
                });
            }
        }
        stage = said.stage;
    }
    Ok(told)
}

// Reads both files, then steps through the program; where the output was not written, one line says so.
fn main(rt: HostRuntime) {
    let mut net = [0u8; ABOVE];
    let mut file = [0u8; ABOVE];
    let mut out = [0u8; program::ROOM];
    let mut rows = [0u32; AREA];
    let mut gained = [0u32; AREA];
    let mut lost = [0u32; AREA];
    let mut head = [0u32; HEAD];
    let n = read_file(&rt, "network.bin", &mut net);
    let m = read_file(&rt, "batch.bin", &mut file);
    let mut output = rt.stdout();
    let ran = run(
        &mut output,
        n.is_some(),
        m.is_some(),
        &net[..n.unwrap_or(0)],
        &file[..m.unwrap_or(0)],
        &mut rows,
        &mut gained,
        &mut lost,
        &mut head,
        &mut out,
    );
    // One line on the error output: a write failed, and why.
    if let Err(stopped) = ran {
        let _ = match stopped.reason {
            Some(error) => eprintln!(rt; "station: the output was not written: {error}"),
            None => eprintln!(rt; "station: the output was not written"),
        };
    }
}
