// Why a book refuses a call.
ghost use Rattle.std.specs.Prelude.{◌≡◌};
ghost use Rattle.cashbook.specs.Faults.{number};

use std::error::Error;
use std::fmt;

// Each with the number of its refusal.
#[derive(Clone, Copy, Debug, PartialEq, Eq)]
pub enum BookFault {
    BatchOpen = 21,
    NoRoom = 24,
    NoBatch = 25,
    NoRow = 26,
    NoMemory = 27,
}

impl fmt::Display for BookFault {
    fn fmt<W: fmt::Write>(&self, f: &mut fmt::Formatter<W>) -> fmt::Result {
        f.write_str(match self {
            BookFault::BatchOpen => "a batch is open already",
            BookFault::NoRoom => "there is no free row",
            BookFault::NoBatch => "no batch is open",
            BookFault::NoRow => "there is no such kept row",
            BookFault::NoMemory => "the memory has no room for a row",
        })
    }
}

impl Error for BookFault {}

// The number of a refusal.
pub fn fault_number(fault: BookFault) -> usize
    ensures { result ≡ number fault }
{
    fault as usize
}
