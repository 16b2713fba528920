// What the numbers of a book are.
ghost use Rattle.std.specs.Prelude.{◌≡◌, ◌+◌, ◌-◌, ◌<◌, ◌≤◌, ◌⊎◌, min, is_some, None, MatchResult};
ghost use Rattle.std.specs.Option.{unwrap_or};
ghost use Rattle.cashbook.specs.Counting.{figures, figure, used as used_of};
ghost use Rattle.cashbook.specs.declared.fault.BookFault.TheVariants.{NoRow};

use super::Counts;
use crate::MOST_ROWS;
use crate::fault::BookFault;

impl Counts {
    // A book of no rows where there is memory for `room`; more than 100,000 are not used.
    pub fn empty(room: usize) -> Counts
        ensures { figures result ≡ figure (min room 100000) 0 None }
    {
        Counts {
            capacity: room.min(MOST_ROWS as usize) as u32,
            kept: 0,
            batch: None,
        }
    }

    pub fn capacity(&self) -> u32
        ensures { result ≡ (figures self.now).capacity }
    {
        self.capacity
    }

    pub fn kept(&self) -> u32
        ensures value { result ≡ (figures self.now).kept }
        ensures within { result ≤ (figures self.now).capacity }
    {
        self.kept
    }

    // The number of rows of the batch, 0 where there is none.
    pub fn batch(&self) -> u32
        ensures { result ≡ unwrap_or (figures self.now).batch 0 }
    {
        self.batch.unwrap_or(0)
    }

    // The number of rows in use: the kept ones and those of the batch.
    pub fn used(&self) -> u32
        ensures value { result ≡ used_of (figures self.now) }
        ensures within { result ≤ (figures self.now).capacity }
    {
        self.kept + self.batch()
    }

    pub fn free(&self) -> u32
        ensures { result ≡ (figures self.now).capacity - used_of (figures self.now) }
    {
        self.capacity - self.used()
    }

    pub fn is_open(&self) -> bool
        ensures { result ≡ is_some (figures self.now).batch }
    {
        self.batch.is_some()
    }

    // The place, counted from 0, of kept row `n`. No plainer as one function with that of a slot in a source, which
    // would take the type of the number and the error.
    pub fn kept_place(&self, n: u32) -> Result<usize, BookFault>
        ensures { MatchResult result (λ place. (place + 1 ≡ n) × (place < (figures self.now).kept)) (λ fault. (fault ≡ NoRow) × ((n ≡ 0) ⊎ ((figures self.now).kept < n))) }
    {
        if n == 0 || n > self.kept {
            return Err(BookFault::NoRow);
        }
        Ok(n as usize - 1)
    }
}
