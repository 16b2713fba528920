// The leftmost field of a record that is not of its form.
ghost use Rattle.std.specs.Prelude.{◌≡◌, map};
ghost use Rattle.layout.specs.Layouts.{is_formed, first_misformed_of, first_misformed};
ghost use Rattle.layout.specs.Tables.{field_of};

use crate::form::holds;
use crate::kind::Kind;
use crate::tables::{Field, table};
use recordbytes::{RecordBytes, span};

// Whether a field of the bytes is of its form.
fn is_formed(field: &Field, bytes: &[u8]) -> bool
    ensures { result ≡ is_formed bytes.now (field_of field.now) }
{
    let Field(first, last, form) = *field;
    holds(form, span(bytes, first, last))
}

// The start of the leftmost of some fields that is not of its form.
pub fn first_misformed_of(fields: &[Field], bytes: &[u8]) -> Option<usize>
    ensures { result ≡ first_misformed_of (map field_of fields.now) bytes.now }
{
    // a loop and no `find`, whose proof needs a law of the leftmost field that the loop does without
    for field in fields {
        if !is_formed(field, bytes) {
            return Some(field.0);
        }
    }
    None
}

// The start of the leftmost field that is not of its form, in a record of a kind.
pub fn first_misformed(kind: Kind, bytes: &RecordBytes) -> Option<usize>
    ensures { result ≡ first_misformed kind bytes.now }
{
    first_misformed_of(table(kind), bytes)
}
