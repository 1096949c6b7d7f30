// The tree of a script as nodes in a lent arena: every node lies behind its children, and an element of a list names the next one.
// specs/Holds.antt says when an arena holds a tree.
#![tactic(auto)]

pub mod nodes;

pub use nodes::{Node, What};
