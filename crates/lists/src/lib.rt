// The lists of a tree, node by node: the columns that types, constants, names and attributes stand for.
// Each function goes over the elements of one list. An arena that holds no tree is read safely and answers something.
#![tactic(auto)]

pub mod arena;
pub mod constants;
pub mod names;

pub use arena::{Elements, next_of, node_at};
pub use constants::{columns, domain_said, tuples_fit};
pub use names::{rename, span_said};
