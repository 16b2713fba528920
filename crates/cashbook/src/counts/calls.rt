// What the calls of a book do to its numbers, and when they refuse.
ghost use Rattle.std.specs.Prelude.{◌≡◌};
ghost use Rattle.cashbook.specs.Counting.{figures, counts_result, opened as opened_of, added as added_of, committed as committed_of, cancelled as cancelled_of};

use super::Counts;
use crate::fault::BookFault;

// Each changes a copy, since `..*self` is refused where a struct has ghost fields.
impl Counts {
    // The numbers once an empty batch is started.
    pub fn opened(&self) -> Result<Counts, BookFault>
        ensures { counts_result result ≡ opened_of (figures self.now) }
    {
        if self.batch.is_some() {
            return Err(BookFault::BatchOpen);
        }
        let mut opened = *self;
        opened.batch = Some(0);
        Ok(opened)
    }

    // The numbers once the batch has one row more.
    pub fn added(&self) -> Result<Counts, BookFault>
        ensures { counts_result result ≡ added_of (figures self.now) }
    {
        let batch = self.batch.ok_or(BookFault::NoBatch)?;
        if self.kept + batch == self.capacity {
            return Err(BookFault::NoRoom);
        }
        let mut added = *self;
        added.batch = Some(batch + 1);
        Ok(added)
    }

    // The numbers once the batch is kept.
    pub fn committed(&self) -> Result<Counts, BookFault>
        ensures { counts_result result ≡ committed_of (figures self.now) }
    {
        let mut committed = *self;
        committed.kept += self.batch.ok_or(BookFault::NoBatch)?;
        committed.batch = None;
        Ok(committed)
    }

    // The numbers once the batch is gone.
    pub fn cancelled(&self) -> Result<Counts, BookFault>
        ensures { counts_result result ≡ cancelled_of (figures self.now) }
    {
        self.batch.ok_or(BookFault::NoBatch)?;
        let mut cancelled = *self;
        cancelled.batch = None;
        Ok(cancelled)
    }
}
