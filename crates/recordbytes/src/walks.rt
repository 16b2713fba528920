// Walks over any bytes, each by the class that it tests.
ghost use Rattle.std.specs.Prelude.{◌≡◌};
ghost use Rattle.recordbytes.specs.Classes.{is_digit, is_plain};
ghost use Rattle.recordbytes.specs.Walks.{first_failing, all, FirstFailing};

use crate::class::{ByteClass, Digit, Plain};

// The place, counted from 0, of the first byte outside a class; none where all are in it. It stops at that byte.
pub fn first_outside<C: ByteClass>(bytes: &[u8]) -> Option<usize>
    ensures value { result ≡ first_failing C.ByteClass.has bytes.now }
    ensures first { FirstFailing C.ByteClass.has bytes.now result }
{
    bytes.iter().position(|byte| !C::contains(*byte))
}

// Whether every byte is in a class. It has no early way out, so that many bytes are tested at once.
pub fn all_inside<C: ByteClass>(bytes: &[u8]) -> bool
    ensures { result ≡ all C.ByteClass.has bytes.now }
{
    let mut inside = true;
    for byte in bytes {
        inside = inside & C::contains(*byte);
    }
    inside
}

// Whether every byte is a digit. It stops at the first other byte.
pub fn all_digits(bytes: &[u8]) -> bool
    ensures { result ≡ all is_digit bytes.now }
{
    first_outside::<Digit>(bytes).is_none()
}

// The place of the first byte that may stand in no record. Few records have one, so many bytes are tested at once,
// and its place is sought only where there is one.
#[tactic(auto, using(crate::proofs::Walking::all_none))]
pub fn first_forbidden(bytes: &[u8]) -> Option<usize>
    ensures value { result ≡ first_failing is_plain bytes.now }
    ensures first { FirstFailing is_plain bytes.now result }
{
    if all_inside::<Plain>(bytes) {
        return None;
    }
    first_outside::<Plain>(bytes)
}
