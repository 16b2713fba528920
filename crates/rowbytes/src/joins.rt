// Parts written one behind the other.
ghost use Rattle.std.specs.Prelude.{◌≡◌, ◌≤◌, ◌++◌, length, drop};
ghost use Rattle.recordbytes.specs.Joins.{joined};
ghost use Rattle.rowbytes.specs.RowBytes.{held, padded as padded_of};

use crate::ROW_LENGTH;

// Puts the parts one behind the other at the front of some bytes. A loop over what `split_at_mut` leaves would say
// nothing of the bytes afterwards.
fn put_parts(parts: &[&[u8]], out: &mut [u8])
    requires { length (joined (held parts.now)) ≤ length out.old }
    ensures { out.new ≡ joined (held parts.now) ++ drop (length (joined (held parts.now))) out.old }
{
    if let Some((part, others)) = parts.split_first() {
        let (place, behind) = out.split_at_mut(part.len());
        place.copy_from_slice(part);
        put_parts(others, behind);
    }
}

// The parts one behind the other, then zeros.
pub fn padded(parts: &[&[u8]]) -> [u8; ROW_LENGTH]
    requires { length (joined (held parts.now)) ≤ 256 }
    ensures { result ≡ padded_of (held parts.now) }
{
    let mut out = [0; ROW_LENGTH];
    put_parts(parts, &mut out);
    out
}
