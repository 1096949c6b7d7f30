// Store calls as text: one call a line, one line of reply for each, over any store.
// `open W`, `add N..`, `drop`, `settle N`, `capacity`, `left`, `tables`, `width T`, `rows T`, `cell T R C`.
#![tactic(auto)]

pub mod reading;
pub mod responses;

pub use reading::read_call;
pub use responses::{Refusal, replies, reply_line, respond};
