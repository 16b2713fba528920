// The header of an image.
ghost use Rattle.std.specs.Prelude.{◌≡◌, ◌≤◌, map};
ghost use Rattle.recordbytes.specs.Joins.{joined};
ghost use Rattle.cashbook.specs.Counting.{figures};
ghost use Rattle.images.specs.Headers.{four_bytes, row_offset, header_numbers, header as header_of};

use cashbook::Counts;
use rowbytes::ROW_LENGTH;

// How many numbers a header has: an array of them and no struct, since each is written alike.
const NUMBERS: usize = 8;

// The bytes of a header.
pub const HEADER_LENGTH: usize = 32;

// Where row `n` begins, counted from 0.
fn row_offset(n: u32) -> u32
    requires { n ≤ 100000 }
    ensures { result ≡ row_offset n }
{
    HEADER_LENGTH as u32 + n * ROW_LENGTH as u32
}

fn header_numbers(counts: &Counts) -> [u32; NUMBERS]
    ensures { result ≡ header_numbers (figures counts.now) }
{
    let kept = counts.kept();
    let used = counts.used();
    let open = u32::from(counts.is_open());
    [
        counts.capacity(),
        kept,
        counts.batch(),
        open,
        row_offset(0),
        row_offset(kept),
        row_offset(used),
        0,
    ]
}

// Each number as four bytes, the lowest first.
fn to_bytes(numbers: &[u32; NUMBERS]) -> [u8; HEADER_LENGTH]
    ensures { result ≡ joined (map four_bytes numbers.now) }
{
    let quadruples = numbers.map(u32::to_le_bytes);
    *quadruples.as_flattened().as_array().unwrap()
}

// The header of a book with these numbers.
pub fn header(counts: &Counts) -> [u8; HEADER_LENGTH]
    ensures { result ≡ header_of (figures counts.now) }
{
    to_bytes(&header_numbers(counts))
}
