// The packed store: the rows of all tables in one run of cells, table after table and row after row.
// A question takes constant time, since the directory keeps where each table begins. An add compares the new row with each row of the
// last table; dropping cuts the run; settling moves the rows behind the table that goes.
#![tactic(auto)]

mod moves;
mod searches;
pub mod store_impl;

pub use store_impl::Packed;
