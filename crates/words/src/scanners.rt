// A scanner: a cursor that moves from token to token. Private to the crate but for its calls.
use crate::cursors::Cursor;

#[derive(Drop)]
pub struct Scanner<'a> {
    pub(crate) at: Cursor<'a>,
}
