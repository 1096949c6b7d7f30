// The words of a script: its text, taken apart into tokens that borrow their bytes from it.
// Nothing here knows which token may follow which.
#![tactic(auto)]

mod cursors;
mod keywords;
mod letters;
pub mod numbers;
pub mod scanners;
mod scanning;
pub mod sizing;
pub mod spans;
mod symbols;
pub mod tallies;
pub mod texts;
pub mod tokens;

pub use numbers::value_within;
pub use scanners::Scanner;
pub use sizing::Oversized;
pub use spans::Span;
pub use tallies::{Tally, scan};
pub use texts::Text;
pub use tokens::{Comparison, Lexeme, Logic, Product, Sign, Sum, Token, Word};
