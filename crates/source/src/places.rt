// The places of slots.
ghost use Rattle.std.specs.Prelude.{◌≡◌, ◌+◌, ◌<◌, ◌⊎◌, MatchResult};
ghost use Rattle.source.specs.declared.source.NoRecord.TheVariants.{Absent};

use crate::source::NoRecord;

// The place, counted from 0, of slot `n` among `count` slots.
pub fn place_of(n: usize, count: usize) -> Result<usize, NoRecord>
    ensures { MatchResult result (λ place. (place + 1 ≡ n) × (place < count)) (λ reason. (reason ≡ Absent) × ((n ≡ 0) ⊎ (count < n))) }
{
    if n == 0 || n > count {
        return Err(NoRecord::Absent);
    }
    Ok(n - 1)
}
