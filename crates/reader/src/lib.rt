// The order machine, a record after the other, each taken or refused; and the check of a file by it.
#![tactic(auto)]

mod checking;
mod closing;
mod continuation;
mod levels;
mod movement;
mod opening;
mod state;
mod step;
mod taking;

pub use checking::{MOST_SLOTS, check};
