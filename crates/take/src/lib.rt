// Take: a supplied text into a variable's table, over any store. The whole of it: read the text, number its strings,
// add its rows; a refused text changes nothing. It knows nothing of a run.
#![tactic(auto)]

mod filling;
mod learning;
pub mod supply;
pub mod taking;

pub use supply::Supply;
pub use taking::{Used, take_table};
