// Listings: the texts of tables and atoms, read in place.
// A reader goes over the supplied bytes once and copies nothing; what it refuses it refuses with a place.
// The format, and what its readers promise, stand in the crate texts.
#![tactic(auto)]

mod cell;
mod headings;
pub mod names;
mod places;
mod reader;
mod rows;
mod values;
pub mod whole;

pub use cell::Cell;
pub use reader::Reader;
pub use whole::read_table;
