// The cash book on the caller's list of rows, with a list of places.
#![tactic(auto)]

mod memory;
mod table;

pub use table::TableBook;
