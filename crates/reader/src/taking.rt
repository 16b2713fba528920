// Taking a record.
ghost use Rattle.std.specs.Prelude.{◌≡◌, ◌≤◌, true, false, MatchResult};

use crate::state::Standing;
use grammar::StatementFault;
use recordbytes::RecordBytes;

// A record that is being taken where a file stands, with room to count it.
#[derive(Clone, Copy)]
pub(crate) struct Taking<'a> {
    pub(crate) standing: &'a Standing,
    pub(crate) bytes: &'a RecordBytes,
    ghost count_room: { standing.now.count ≤ 1000000 },
    ghost statements_room: { standing.now.statements ≤ 1000000 },
    ghost movements_room: { standing.now.movements ≤ 1000000 },
}

// A rule of a record, and its fault where it is not kept.
pub(crate) fn rule(kept: bool, fault: StatementFault) -> Result<(), StatementFault>
    ensures { MatchResult result (λ _. kept ≡ true) (λ f. (kept ≡ false) × (f ≡ fault)) }
{
    if kept { Ok(()) } else { Err(fault) }
}
