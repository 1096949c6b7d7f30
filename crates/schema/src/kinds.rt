// The type of a value: an atom of a domain, or a table of a schema.
use crate::schemas::Schema;
use domain::Domain;

#[derive(Clone, Copy)]
pub enum Kind {
    Atom(Domain),
    Table(Schema),
}
