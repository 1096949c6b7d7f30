// Scopes: nested lists of entries that have names, and the search for a name in them.
// One text serves every kind of entry: `chain`. What an expression or a statement adds to a scope is not known here.
#![tactic(auto)]

pub mod chain;
pub mod entries;
pub mod nesting;
pub mod places;
pub mod starts;
pub mod variables;

pub use chain::{Named, find, newest};
pub use places::Place;
pub use starts::Starts;
pub use variables::Variable;
