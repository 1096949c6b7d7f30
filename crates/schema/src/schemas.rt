// A schema: its attributes in order, the first `len` of `COLUMNS`. What lies behind them has no meaning.
// No `ArrayVec` and no `impl Model`: a schema is `Copy`, which neither an `ArrayVec` (whose `clone` can fail) nor a view of the list alone can be.
ghost use Rattle.std.specs.Prelude.{◌≡◌, ◌≤◌, length};
ghost use Rattle.fault.specs.Limits.{columns};

use crate::attributes::Attribute;
use fault::limits::COLUMNS;

#[derive(Clone, Copy)]
pub struct Schema {
    pub(crate) attributes: [Attribute; COLUMNS],
    pub(crate) len: usize,
    ghost room: { length attributes ≡ columns },
    ghost few: { len ≤ columns },
}
