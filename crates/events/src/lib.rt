// Batches read from bytes: refusals 10 to 13.

#![tactic(auto)]

ghost use Rattle.std.specs.Prelude.{◌≡◌, true, false, ◌+◌, ◌*◌, ◌≤◌, ◌<◌, length};
ghost use Rattle.model.specs.Record.{is_broken};
ghost use Rattle.model.specs.Batch.{event_fits_by, read_batch};
ghost use Rattle.model.specs.Row.{max_nodes, Narrow};
ghost use Rattle.network.specs.Reading.{nodes_of};
ghost use Rattle.verdicts.specs.Verdicts.{verdict_of};
ghost use Rattle.events.specs.Reading.{NumbersOf, is_table_in, ReadsEvent};

use records::{Action, MAX_EVENTS};
use verdicts::{Rule, Verdict};

// Whether a record of at least a header's length names a table and has its table's length: rule 13.
fn event_fits(bytes: &[u8], at: usize, count: usize, widths: &[usize], levels: &[usize]) -> bool
    requires { (is_broken bytes.now at ≡ false) × (count ≤ length widths.now) × (count ≤ length levels.now)
        × (count ≤ max_nodes)
        × Narrow widths.now }
    ensures { result ≡ event_fits_by count (is_table_in levels.now) widths.now
        bytes.now at }
{
    let size = records::u16_at(bytes, at);
    if size < 6 {
        return false;
    }
    let table = records::field_at(bytes, at, 0);
    if count <= table {
        return false;
    }
    if levels[table] != 0 {
        return false;
    }
    size == 6 + 4 * widths[table]
}

// How long the event at an offset is, after so many events: rules 10 to 13 in order.
fn read_event(
    bytes: &[u8],
    at: usize,
    before: usize,
    count: usize,
    widths: &[usize],
    levels: &[usize],
) -> Result<usize, Rule>
    requires { (at < length bytes.now) × (count ≤ length widths.now) × (count ≤ length levels.now)
        × (count ≤ max_nodes) × Narrow widths.now }
    ensures { ReadsEvent count widths.now levels.now before bytes.now at result }
{
    if records::is_broken(bytes, at) {
        return Err(Rule::BrokenEvent);
    }
    Action::try_from(records::u16_at(bytes, at + 2))?;
    if MAX_EVENTS <= before {
        return Err(Rule::TooManyEvents);
    }
    if !event_fits(bytes, at, count, widths, levels) {
        return Err(Rule::WrongEvent);
    }
    Ok(records::u16_at(bytes, at))
}

// What reading a batch says, given a network's node count, widths and levels: refusals 10 to 13, the first record that
// fails decides.
pub fn read_batch<'a>(
    count: usize,
    widths: &'a [usize],
    levels: &'a [usize],
    bytes: &'a [u8],
) -> Verdict
    requires { NumbersOf count widths.now levels.now }
    ensures reads { (o : NumbersOf count widths.now levels.now) →
        verdict_of result ≡ (read_batch (nodes_of o.net) bytes.now).verdict }
{
    let mut before = 0;
    let mut at = 0;
    while at < bytes.len() {
        let here = at;
        let reading = read_event(bytes, here, before, count, widths, levels);
        // The form that the order names for records, as in `read_network`.
        let Ok(size) = reading else {
            return Err(reading.unwrap_err().at(here));
        };
        before += 1;
        at = here + size;
    }
    Ok(())
}
