// Finding rows.
ghost use Rattle.std.specs.Prelude.{◌≡◌, ◌+◌, ◌<◌, ◌≤◌, length};
ghost use Rattle.std.specs.Option.{option_map};
ghost use Rattle.rows.specs.Held.{fields_of};
ghost use Rattle.cashbook.specs.Counting.{figures, used};
ghost use Rattle.cashbook.specs.Questions.{latest as latest_of};
ghost use Rattle.rowbytes.specs.RowBytes.{row_read};
ghost use Rattle.images.specs.Headers.{row_offset};
ghost use Rattle.images.specs.Images.{piece, image_rows};
ghost use Rattle.imagebook.specs.Memory.{memory};

use super::ImageBook;
use images::HEADER_LENGTH;
use rowbytes::{ROW_LENGTH, is_statement_of, read_row};
use rows::{Account, Row};

// The bytes of row `i`, counted from 0.
fn row_part(bytes: &[u8], i: usize) -> &[u8]
    requires { row_offset (i + 1) ≤ length bytes.now }
    ensures { result.now ≡ piece i bytes.now }
{
    let at = HEADER_LENGTH + i * ROW_LENGTH;
    &bytes[at..at + ROW_LENGTH]
}

impl<'a> ImageBook<'a> {
    // Row `i` of those in use, counted from 0.
    pub(super) fn row(&self, i: usize) -> Row
        requires { i < used (figures self.now.counts) }
        ensures { fields_of result ≡ row_read (piece i (memory self.now)) }
    {
        read_row(row_part(self.bytes, i)).unwrap()
    }

    // The latest statement row of an account among the first `count` of those in use.
    pub(super) fn latest_of(&self, count: usize, account: &Account) -> Option<Row>
        requires { count ≤ used (figures self.now.counts) }
        ensures { option_map fields_of result ≡ latest_of account.now (image_rows count (memory self.now)) }
    {
        // a loop, since the check finds no proof of which `i` a `rev().find(..)` or `rposition(..)` on `0..count` gives
        for i in (0..count).rev() {
            if is_statement_of(row_part(self.bytes, i), account) {
                return Some(self.row(i));
            }
        }
        None
    }
}
