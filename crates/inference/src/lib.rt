// Inference: the result type of each operator, given its operands' types, or the fault.
// Nothing here knows of nodes or scopes: the checker asks for these steps one by one.
#![tactic(auto)]

pub mod columns;
pub mod kinds;

pub use columns::{column_domain, extend, has, join};
pub use kinds::{as_atom, as_atoms, columns_of, compare, is_atom};
