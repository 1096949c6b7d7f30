// The strings that have a number: the script's literals, and the entries of the pool that are in use.
ghost use Rattle.std.specs.Prelude.{◌≤◌, length};
ghost use Rattle.fault.specs.Limits as limits;

use words::Span;

#[derive(Clone, Copy)]
pub struct Known<'a> {
    pub(crate) script: &'a [u8],
    pub(crate) literals: &'a [Span],
    pub(crate) pool: &'a [u8],
    pub(crate) entries: &'a [Span],
    ghost some: { length literals.now ≤ limits.literals },
    ghost few: { length entries.now ≤ limits.read_strings },
}
