// The layouts of the eleven records: their kinds, the forms of their fields, and which field is not of its form.
#![tactic(auto)]

mod form;
mod kind;
mod misformed;
mod tables;

pub use form::{Form, holds};
pub use kind::{KIND_COUNT, KINDS, Kind, kind_of};
pub use misformed::{first_misformed, first_misformed_of};
pub use tables::{Field, layouts_tile, table};
