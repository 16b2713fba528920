// Making a book on a table, and handing the table back.
ghost use Rattle.std.specs.Prelude.{◌≡◌, [], None};
ghost use Rattle.cashbook.specs.Counting.{figure, figures};
ghost use Rattle.cashbook.specs.Meaning.{meaning};
ghost use Rattle.cashbook.specs.Questions.{room_answer};
ghost use Rattle.tablebook.specs.Memory.{means_of, rows_in, places_in, table_capacity, HoldsRows, HoldsPlaces};

use super::TableBook;
use crate::memory::Memory;
use cashbook::{BookFault, Counts, test_room};
use rows::Fields;

// The numbers of an empty book on two lists.
fn empty_counts(rows: &[Fields], places: &[u32]) -> Counts
    ensures { figures result ≡ figure (table_capacity rows.now places.now) 0 None }
{
    Counts::empty(rows.len().min(places.len()))
}

impl<'a> TableBook<'a> {
    // Whether the lists have room for a row; a book on others can be made all the same, and has no capacity.
    pub fn test(rows: &[Fields], places: &[u32]) -> Result<(), BookFault>
        ensures { result ≡ room_answer (table_capacity rows.now places.now) }
    {
        test_room(empty_counts(rows, places).capacity())
    }

    // An empty book on a list of rows and a list of places.
    pub fn new(rows: &'a mut [Fields], places: &'a mut [u32]) -> Self
        ensures empty { means_of result ≡ meaning (table_capacity rows.old places.old) [] None }
        ensures memory { (rows_in result ≡ rows.old) × (places_in result ≡ places.old) }
    {
        let counts = empty_counts(rows, places);
        TableBook {
            memory: Memory {
                rows,
                places,
                kept: 0,
                accounts: 0,
            },
            counts,
        }
    }

    // Hands the lists back: the rows in use first, and the places of the kept ones first.
    pub fn close(self) -> (&'a mut [Fields], &'a mut [u32])
        ensures same { (result.0.now ≡ rows_in self.entry) × (result.1.now ≡ places_in self.entry) }
        ensures rows { HoldsRows (means_of self.entry) result.0.now }
        ensures places { HoldsPlaces (means_of self.entry) result.1.now }
    {
        let rows = self.memory.rows;
        let places = self.memory.places;
        (rows, places)
    }
}
