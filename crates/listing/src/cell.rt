// What a cell of a supplied text holds: a number, a part of the text, a truth value.
use words::Span;

#[derive(Clone, Copy)]
pub enum Cell {
    Integer(i64),
    String(Span),
    Boolean(bool),
}
