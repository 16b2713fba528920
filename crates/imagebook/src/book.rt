// The type of a book on an image.
ghost use Rattle.std.specs.Prelude.{◌≡◌, ◌≤◌, true, length, take};
ghost use Rattle.cashbook.specs.Counting.{figures, used};
ghost use Rattle.images.specs.Headers.{row_offset, header};
ghost use Rattle.images.specs.Images.{pieces, are_written};

use cashbook::Counts;

mod calls;
mod make;
mod reading;
mod writing;

pub use make::images_are_exact;

// The header tells the numbers, and the rows in use stand behind it, each exactly as a row is written.
#[derive(Drop)]
pub struct ImageBook<'a> {
    bytes: &'a mut [u8],
    counts: Counts,
    ghost backed: { (1 ≤ (figures counts).capacity → row_offset (figures counts).capacity ≤ length bytes.now) },
    ghost headed: { (32 ≤ length bytes.now → take 32 bytes.now ≡ header (figures counts)) },
    ghost exact: { are_written (take (used (figures counts)) (pieces (figures counts).capacity bytes.now)) ≡ true },
}
