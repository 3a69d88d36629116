//! What a trace asks for, one line after the other, as events for the core. It reads by `TextIn` alone.

ghost use Rattle.std.specs.Prelude.{◌≡◌, ℕ};
ghost use Rattle.rs_trace.specs.Played.{failures_read, failures_written};
ghost use Rattle.rs_trace.specs.Replays.{ReadsOn, place_in, meaning_read, stop_of};

use crate::fault::{ReplayFault, Stop};
use crate::names::Names;
use crate::progress::Watch;
use crate::text::TextIn;
use crate::trace_lines::TraceLines;
use rs_core::Event;

/// Reads up to a line that asks for something, and answers the event that it asks for.
pub fn next_event<R: TextIn, P: Watch>(
    names: &Names,
    lines: &mut TraceLines,
    number: &mut u64,
    reader: &mut R,
    watch: &mut P,
    piece: &mut [u8; 4096],
) -> Result<Event, Stop>
    ensures on { ReadsOn R.takes R.at_end (place_in names.now) reader.old number.old lines.old reader.new number.new lines.new (meaning_read piece.new lines.new.rules.items result) (stop_of result) }
    ensures reads { R.failures reader.new ≡ failures_read (stop_of result) (R.failures reader.old) }
    ensures unwritten { (n : ℕ) → n ≡ failures_written (stop_of result) n }
{
    for _ in 0..u64::MAX {
        match lines.read_event(names, number, reader, watch, piece) {
            Ok(None) => {}
            Ok(Some(event)) => return Ok(event),
            Err(stop) => return Err(stop),
        }
    }
    Err(Stop::Fault(ReplayFault::Memory))
}
