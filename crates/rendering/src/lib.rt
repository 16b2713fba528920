// Records written from their parts: what is of a layout's form, and of which kind it is.
#![tactic(auto)]

mod written;

pub use written::records_are_written;
