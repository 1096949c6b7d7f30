// Expressions and factors, which contain each other, and the table constants in them.
#![tactic(auto)]

pub mod expressions;
pub mod sorts;
pub mod tables;

pub use expressions::{assigned, bracket, expr};
