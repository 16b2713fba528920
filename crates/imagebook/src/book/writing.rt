// Writing a row, and the header.
ghost use Rattle.std.specs.Prelude.{◌≡◌, ◌<◌, true, take};
ghost use Rattle.rows.specs.Held.{fields_of};
ghost use Rattle.cashbook.specs.Counting.{figures, used};
ghost use Rattle.rowbytes.specs.RowBytes.{row_bytes};
ghost use Rattle.images.specs.Images.{put_row, put_header, pieces, are_written};
ghost use Rattle.imagebook.specs.Memory.{memory};

use super::ImageBook;
use cashbook::Counts;
use images::{HEADER_LENGTH, header};
use rowbytes::{ROW_LENGTH, row_bytes};
use rows::Row;

// Writes the header, where there is room for one.
pub fn write_header(bytes: &mut [u8], counts: &Counts)
    ensures { bytes.new ≡ put_header (figures counts.now) bytes.old }
{
    if bytes.len() >= HEADER_LENGTH {
        bytes[0..HEADER_LENGTH].copy_from_slice(&header(counts));
    }
}

impl<'a> ImageBook<'a> {
    // Writes a row behind those in use.
    pub(super) fn write_next(&mut self, row: &Row)
        requires { used (figures self.old.counts) < (figures self.old.counts).capacity }
        ensures memory { memory self.new ≡ put_row (used (figures self.old.counts)) (row_bytes (fields_of row.now)) (memory self.old) }
        ensures counts { figures self.new.counts ≡ figures self.old.counts }
    {
        let at = HEADER_LENGTH + self.counts.used() as usize * ROW_LENGTH;
        self.bytes[at..at + ROW_LENGTH].copy_from_slice(&row_bytes(row));
    }

    // Takes other numbers, and writes the header that tells them.
    pub(super) fn tell(&mut self, counts: Counts)
        requires capacity { (figures counts).capacity ≡ (figures self.old.counts).capacity }
        requires exact { are_written (take (used (figures counts)) (pieces (figures self.old.counts).capacity (memory self.old))) ≡ true }
        ensures memory { memory self.new ≡ put_header (figures counts) (memory self.old) }
        ensures counts { figures self.new.counts ≡ figures counts }
    {
        write_header(self.bytes, &counts);
        self.counts = counts;
    }
}
