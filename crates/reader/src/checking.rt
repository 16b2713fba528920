// Checking a file: one pass over its slots.
ghost use Rattle.std.specs.Prelude.{◌≡◌, ◌<◌, ◌≤◌, length};
ghost use Rattle.source.specs.Slots.{slot_at};
ghost use Rattle.grammar.specs.Complaints.{RefusalsAreLeast};
ghost use Rattle.grammar.specs.Steps.{checked};
ghost use Rattle.grammar.specs.Theorems.{Checks};
ghost use Rattle.reader.specs.Reads.{FetchedAs};

use crate::state::State;
use grammar::{Counts, FileFault, Located, SourceFault};
use recordbytes::{RECORD_LENGTH, RecordBytes};
use source::{NoRecord, Source};

// The most slots that a file may have.
pub const MOST_SLOTS: usize = 100_000;

// Reads a slot that is there into `out`.
fn read<S: Source>(source: &mut S, slot: usize, out: &mut RecordBytes) -> Result<(), SourceFault>
    requires { (0 < slot) × (slot ≤ length (S.Source.slots source.old)) }
    ensures reads { FetchedAs slot (slot_at (S.Source.slots source.old) slot) out.new result }
    ensures same { S.Source.slots source.new ≡ S.Source.slots source.old }
{
    // no `map_err`, since a closure does not know that the slot is there
    match source.fetch(slot, out) {
        Ok(()) => Ok(()),
        Err(NoRecord::Damaged(damage)) => Err(SourceFault { slot, damage }),
        Err(NoRecord::Absent) => unreachable!(),
    }
}

// Checks a file: how many statements and movement records it has, or its first fault.
pub fn check<S: Source>(source: &mut S) -> Result<Counts, FileFault>
    ensures answers { result ≡ checked (S.Source.slots source.old) }
    ensures law { Checks (S.Source.slots source.old) }
    ensures least { RefusalsAreLeast }
    ensures same { S.Source.slots source.new ≡ S.Source.slots source.old }
{
    let slots = source.count();
    if slots > MOST_SLOTS {
        return Err(FileFault::TooManySlots);
    }
    let mut state = State::new();
    let mut bytes = [0; RECORD_LENGTH];
    for slot in 1..=slots {
        read(source, slot, &mut bytes)?;
        state.step(&bytes).map_err(|fault| Located { slot, fault })?;
    }
    state.end(slots + 1)
}
