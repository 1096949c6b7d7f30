// A line of the ledger: a row, as wide as rows can be, and the number of the table that it belongs to.
use fault::limits::COLUMNS;

#[derive(Clone, Copy, Debug, PartialEq, Eq)]
pub struct Line {
    pub table: u16,
    pub cells: [i64; COLUMNS],
}
