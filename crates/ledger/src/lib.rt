// The ledger: the simplest store that keeps the meaning, and an example of how to build one.
// Every row is a line with the number of its table, in the order in which the rows came. Questions and drops read the whole ledger.
#![tactic(auto)]

mod book;
pub mod line;
pub mod store_impl;

pub use line::Line;
pub use store_impl::Ledger;
