// Strings by number: those of a script, those read before, and those that a text brings.
// The search for a string is one function; nothing here keeps strings of its own but as parts of texts.
#![tactic(auto)]

pub mod find;
pub mod fresh;
pub mod known;
pub mod learning;
mod numbers;

pub use find::find_in;
pub use fresh::{Fresh, Room};
pub use known::Known;
pub use learning::Source;
