// What a question found, put into the caller's place.
ghost use Rattle.std.specs.Prelude.{◌≡◌, is_some};
ghost use Rattle.std.specs.Option.{option_map};
ghost use Rattle.rows.specs.Held.{fields_of};
ghost use Rattle.cashbook.specs.Questions.{Puts};

use rows::Row;

// Puts the row that was found into `into`; false, and nothing written, where none was.
// It answers no row, since by a rule of the project a question puts its row into the caller's place.
pub fn put(found: Option<Row>, into: &mut Row) -> bool
    ensures answers { result ≡ is_some (option_map fields_of found) }
    ensures puts { Puts (option_map fields_of found) into.old into.new }
{
    match found {
        Some(row) => {
            *into = row;
            true
        }
        None => false,
    }
}
