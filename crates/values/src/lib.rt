// Days and money as records write them.
#![tactic(auto)]

mod calendar;
mod day;
mod laws;
mod money;
mod signs;
#[cfg(test)]
mod tests;

pub use calendar::is_day;
pub use day::Day;
pub use laws::{days_are_ordered, days_examples, money_examples, money_reads_back, values_hold};
pub use money::Money;
pub use signs::{DEBIT, signed};
