// Which files are lawful, and the order machine that passes just those, as definitions and theorems.
#![tactic(auto)]

mod expect;
mod faults;
pub mod positions;
mod refusals;

pub use expect::Expect;
pub use faults::{Counts, FileFault, Located, RecordFault, SourceFault, StatementFault};
pub use refusals::refusals_are_least;
