// Records cut into their fields.
#![tactic(auto)]

mod cases;
mod cutting;

pub use cases::{
    Counterparty, FreeCommunication, Header, Information, InformationSecond, InformationThird,
    Movement, MovementSecond, NewBalance, OldBalance, Record, Trailer,
};
pub use cutting::cut;

#[cfg(test)]
mod tests;
