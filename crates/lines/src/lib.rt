// Lines: what a host collects and is asked for. Each call writes one line, with its line feed, at the start of a buffer
// of at least `LINE_BYTES` bytes, and leaves the bytes behind the line as they were.
// Nothing here knows of a run or of a store: values come in ready to be shown.
#![tactic(auto)]

pub mod calls;
mod entries;
mod headings;
pub mod shown;
mod values;
mod writing;

pub use calls::{atom_line, end_line, heading_line, row_line, to_line, wish_line};
pub use shown::{Shown, Sources, Text};
