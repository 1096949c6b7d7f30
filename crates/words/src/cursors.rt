// Where a scanner stands: what is left of the text, and the place where that begins.
ghost use Rattle.std.specs.Prelude.{◌+◌, ◌≤◌, length};
ghost use Rattle.fault.specs.Limits.{script_bytes};

use crate::tokens::Token;
use fault::Place;

// A text is so short that lines and bytes never leave their types.
#[derive(Clone, Copy)]
pub struct Cursor<'a> {
    pub(crate) rest: &'a [u8],
    pub(crate) place: Place,
    ghost within: { place.byte + length rest.now ≤ script_bytes },
    ghost lines: { place.line ≤ place.byte + 1 },
}

// A token that begins at a cursor, and the cursor behind it.
#[derive(Clone, Copy)]
pub struct Found<'a> {
    pub token: Token<'a>,
    pub after: Cursor<'a>,
}
