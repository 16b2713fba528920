// From the bytes of a slot to what fetching it answers.
ghost use Rattle.std.specs.Prelude.{◌≡◌, Some};
ghost use Rattle.source.specs.Slots.{judge};
ghost use Rattle.source.specs.Fetching.{answer, left_in};

use crate::source::{Damage, NoRecord, TOO_LONG, TOO_SHORT};
use recordbytes::{RECORD_LENGTH, RecordBytes};

// Puts the bytes of a slot into `out` if they are a record.
pub fn deliver(bytes: &[u8], out: &mut RecordBytes) -> Result<(), NoRecord>
    ensures answers { result ≡ answer (Some (judge bytes.now)) }
    ensures writes { out.new ≡ left_in (Some (judge bytes.now)) out.old }
{
    // as an array, whose length the copy knows
    if let Some(record) = bytes.as_array() {
        *out = *record;
        return Ok(());
    }
    let cause = if bytes.len() < RECORD_LENGTH {
        TOO_SHORT
    } else {
        TOO_LONG
    };
    Err(NoRecord::Damaged(Damage { cause }))
}
