// What a cash book is: its meaning, its calls, its refusals; and the numbers that every book keeps.
#![tactic(auto)]

mod book;
mod counts;
mod fault;
mod found;
mod room;

pub use book::Book;
pub use counts::Counts;
pub use fault::{BookFault, fault_number};
pub use found::put;
pub use room::test_room;

// The most rows that a book has room for.
pub const MOST_ROWS: u32 = 100_000;
