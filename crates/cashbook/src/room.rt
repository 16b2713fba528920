// Whether memory has room for a row.
ghost use Rattle.std.specs.Prelude.{◌≡◌};
ghost use Rattle.cashbook.specs.Questions.{room_answer};

use crate::fault::BookFault;

// Refuses memory on which a book would have no capacity.
pub fn test_room(capacity: u32) -> Result<(), BookFault>
    ensures { result ≡ room_answer capacity }
{
    if capacity == 0 {
        return Err(BookFault::NoMemory);
    }
    Ok(())
}
