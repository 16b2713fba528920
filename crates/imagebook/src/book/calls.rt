// The calls of a book on an image.
ghost use Rattle.std.specs.Prelude.{◌≡◌};
ghost use Rattle.rows.specs.Held.{fields_of};
ghost use Rattle.cashbook.specs.Calls.{answer, after, opening, adding, committing, cancelling};
ghost use Rattle.imagebook.specs.Memory.{memory, means_of, rewritten, with_row};
ghost use Rattle.imagebook.specs.Sounding.{image_sound};

use super::ImageBook;
use cashbook::{Book, BookFault, put};
use rows::{Account, Row};

impl<'a> Book for ImageBook<'a> {
    ghost means = { means_of };

    ghost sound = { λ s. image_sound s.counts.capacity s.counts.kept s.counts.batch (memory s) s.counts.small s.counts.room s.exact };

    fn open(&mut self) -> Result<(), BookFault>
        ensures answers { result ≡ answer (opening (means_of self.old)) }
        ensures leaves { means_of self.new ≡ after (means_of self.old) (opening (means_of self.old)) }
        ensures memory { memory self.new ≡ rewritten (means_of self.old) (opening (means_of self.old)) (memory self.old) }
    {
        let opened = self.counts.opened()?;
        self.tell(opened);
        Ok(())
    }

    fn add(&mut self, row: &Row) -> Result<(), BookFault>
        ensures answers { result ≡ answer (adding (means_of self.old) (fields_of row.now)) }
        ensures leaves { means_of self.new ≡ after (means_of self.old) (adding (means_of self.old) (fields_of row.now)) }
        ensures memory { memory self.new ≡ with_row (means_of self.old) (fields_of row.now) (memory self.old) }
    {
        let added = self.counts.added()?;
        self.write_next(row);
        self.tell(added);
        Ok(())
    }

    fn commit(&mut self) -> Result<u32, BookFault>
        ensures answers { result ≡ answer (committing (means_of self.old)) }
        ensures leaves { means_of self.new ≡ after (means_of self.old) (committing (means_of self.old)) }
        ensures memory { memory self.new ≡ rewritten (means_of self.old) (committing (means_of self.old)) (memory self.old) }
    {
        let committed = self.counts.committed()?;
        let rows = self.counts.batch();
        self.tell(committed);
        Ok(rows)
    }

    fn cancel(&mut self) -> Result<u32, BookFault>
        ensures answers { result ≡ answer (cancelling (means_of self.old)) }
        ensures leaves { means_of self.new ≡ after (means_of self.old) (cancelling (means_of self.old)) }
        ensures memory { memory self.new ≡ rewritten (means_of self.old) (cancelling (means_of self.old)) (memory self.old) }
    {
        let cancelled = self.counts.cancelled()?;
        let rows = self.counts.batch();
        self.tell(cancelled);
        Ok(rows)
    }

    fn is_open(&self) -> bool {
        self.counts.is_open()
    }

    fn free(&self) -> u32 {
        self.counts.free()
    }

    fn kept(&self) -> u32 {
        self.counts.kept()
    }

    fn kept_row(&self, n: u32, into: &mut Row) -> Result<(), BookFault> {
        let place = self.counts.kept_place(n)?;
        *into = self.row(place);
        Ok(())
    }

    fn latest_kept(&self, account: &Account, into: &mut Row) -> bool {
        put(self.latest_of(self.counts.kept() as usize, account), into)
    }

    fn latest(&self, account: &Account, into: &mut Row) -> bool {
        put(self.latest_of(self.counts.used() as usize, account), into)
    }
}
