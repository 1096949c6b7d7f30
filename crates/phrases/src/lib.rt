// The small phrases of scripts, and what every parser function does: pull a token, expect one, put a node.
// Expressions and statements are built from these in crates of their own.
#![tactic(auto)]

pub mod leaves;
pub mod lists;
pub mod one_lifetime;
pub mod parsers;
pub mod sorts;
pub mod stepping;

pub use parsers::Parser;
