// The chained store: each cell is linked to the next one of its table, and the free cells to each other.
// A table keeps its first cell, so a walk begins there. Dropping and settling move no cell: they link the cells that go before the free ones.
#![tactic(auto)]

mod links;
mod rows;
pub mod store_impl;

pub use store_impl::Chained;
