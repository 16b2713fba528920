// Making a row of fields, and its fields again.
ghost use Rattle.std.specs.Prelude.{◌≡◌, true};
ghost use Rattle.std.specs.Option.{option_map};
ghost use Rattle.rows.specs.Held.{fields_of};
ghost use Rattle.rows.specs.Rows.{is_row, row_made, blank};

use super::Row;
use crate::fields::{BLANK, Fields};
use crate::formed::is_row;

impl Row {
    // The row of a statement of nothing, to be written over by a question.
    #[tactic(auto, unfolding(crate::specs::Rows::is_row, crate::specs::Rows::fits))]
    pub fn blank() -> Row
        ensures { fields_of result ≡ blank }
    {
        Row { fields: BLANK }
    }

    // The row with these fields; none where they are not those of a row.
    pub fn new(fields: Fields) -> Option<Row>
        ensures { option_map fields_of result ≡ row_made fields }
    {
        if !is_row(&fields) {
            return None;
        }
        Some(Row { fields })
    }

    pub fn fields(&self) -> Fields
        ensures value { result ≡ fields_of self.now }
        ensures fine { is_row result ≡ true }
    {
        self.fields
    }
}
