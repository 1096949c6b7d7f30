// Schemas: up to `COLUMNS` attributes in order, and when two types are the same.
// Names are parts of a text, so a schema is read together with that text. Nothing here knows of scopes or expressions.
#![tactic(auto)]

pub mod attributes;
pub mod building;
pub mod columns;
pub mod kinds;
pub mod sameness;
pub mod schemas;

pub use attributes::Attribute;
pub use columns::Columns;
pub use kinds::Kind;
pub use sameness::{same_schema, same_type};
pub use schemas::Schema;
