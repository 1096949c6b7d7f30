// The directory of a store's tables: what the store keeps of each, in order, and what calls say of a table that is not there.
// Packed and chained keep an `Entry` of each table, over cells that they lay out differently.
// What a directory of entries and a run of cells stand for is in specs/Run.antt; the lemmas on it serve both stores.
#![tactic(auto)]

pub mod entry;
pub mod tables;

pub use entry::Entry;
pub use tables::Directory;
