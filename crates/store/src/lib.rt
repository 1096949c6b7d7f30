// The row store: what a store of tables is to its callers, whatever its layout.
// The meaning stands in specs/Meaning.antt; the trait `RowStore` promises it, call by call.
// Layouts are crates of their own (packed, chained, ledger) and know nothing of each other.
#![tactic(auto)]

pub mod calls;
pub mod refusals;
pub mod row_store;
pub mod shown;

pub use calls::{Answer, Call, perform, perform_all};
pub use refusals::refuse;
pub use row_store::RowStore;
