// The type of a row.
ghost use Rattle.std.specs.Prelude.{◌≡◌, true};
ghost use Rattle.rows.specs.Rows.{is_row};

use crate::fields::Fields;

mod methods;

// Fields that are each of their form and width, with balances and a number within their bounds.
#[derive(Clone, Copy, Debug, PartialEq, Eq)]
pub struct Row {
    fields: Fields,
    ghost fine: { is_row fields ≡ true },
}
