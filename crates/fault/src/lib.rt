// Faults: what a refusal tells, and the limits that refusals are measured by.
// Every layer passes this one type on, so it knows nothing of any layer.
#![tactic(auto)]

pub mod limits;
pub mod places;
pub mod rules;
pub mod shown;

pub use places::Place;
pub use rules::{Fault, Layer, Party, Rule};
