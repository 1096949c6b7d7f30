// Trials of schemas, scopes and inference: small columns over the text `aba`, each with what the rules give. Tests only.
#![tactic(auto)]

ghost use Rattle.std.specs.Prelude.{◌≡◌, codes, Some};
ghost use Rattle.domain.specs.declared.Domain.TheVariants.{Integer};
ghost use Rattle.schema.specs.Columns.{column_of, schema_of};
ghost use Rattle.typing.specs.Checker.{together, with_column};
ghost use Rattle.inference.specs.Views.{answered};
ghost use Rattle.schema_trials.specs.Trials.{text as names, column_for, columns_for, with_room, refusal_of, outcome, at_byte};

use domain::Domain;
use fault::limits::COLUMNS;
use fault::{Fault, Place as ScriptPlace};
use inference::{extend, join};
use schema::{Attribute, Schema};
use scope::{Place, find};
use words::Span;

pub const TEXT: &[u8] = b"aba";

// The columns `integer a`, `integer b`, `string a`, and an integer and a string without a name.
pub fn column(which: char) -> Attribute
    ensures { column_of names result ≡ column_for which }
{
    match which {
        'a' => Attribute {
            name: Some(Span { start: 0, len: 1 }),
            domain: Domain::Integer,
        },
        'b' => Attribute {
            name: Some(Span { start: 1, len: 1 }),
            domain: Domain::Integer,
        },
        's' => Attribute {
            name: Some(Span { start: 2, len: 1 }),
            domain: Domain::String,
        },
        'i' => Attribute {
            name: None,
            domain: Domain::Integer,
        },
        _ => Attribute {
            name: None,
            domain: Domain::String,
        },
    }
}

// One column more, if there is room for it.
fn grown(schema: Schema, which: char) -> Schema
    ensures { schema_of names result ≡ with_room (schema_of names schema) (column_for which) }
{
    schema.with(column(which)).unwrap_or(schema)
}

// The schema of so many nameless integers, then these columns, as far as there is room.
pub fn schema(integers: usize, columns: &[char]) -> Schema
    ensures { schema_of names result ≡ columns_for integers columns.now }
{
    let mut schema = Schema::empty();
    for _ in 0..integers {
        schema = grown(schema, 'i');
    }
    for which in columns {
        schema = grown(schema, *which);
    }
    schema
}

// The number and byte of a fault.
#[derive(Clone, Copy, Debug, PartialEq, Eq)]
pub struct Refused {
    pub number: u8,
    pub byte: u32,
}

impl From<Fault> for Refused {
    ghost from_gives = { λ fault refused. refused ≡ refusal_of fault };

    fn from(fault: Fault) -> Refused {
        Refused {
            number: fault.rule.number(),
            byte: fault.place.byte,
        }
    }
}

// What a step answers: the width of its result, or its fault.
fn outcome(answer: Result<Schema, Fault>) -> Result<usize, Refused>
    ensures { result ≡ outcome (answered (schema_of names) answer) }
{
    Ok(answer?.width())
}

// A place of the first line.
fn at_byte(byte: u32) -> ScriptPlace
    ensures { result ≡ at_byte byte }
{
    ScriptPlace { line: 1, byte }
}

// A join at byte 7.
pub fn joined(left: &Schema, right: &Schema) -> Result<usize, Refused>
    ensures { result ≡ outcome (together (schema_of names left.now) (schema_of names right.now) (at_byte 7)) }
{
    outcome(join(*left, right, TEXT, at_byte(7)))
}

// An extension by an integer `a`, the operator at byte 7 and the name at byte 9.
pub fn extended(operand: &Schema) -> Result<usize, Refused>
    ensures { result ≡ outcome (with_column (schema_of names operand.now) (codes "a") Integer (at_byte 7) (at_byte 9)) }
{
    let name = Span { start: 0, len: 1 };
    outcome(extend(
        *operand,
        name,
        Domain::Integer,
        TEXT,
        at_byte(7),
        at_byte(9),
    ))
}

// Where `a` is found in the attributes a, b | b | i, s | i, from the outermost list to the innermost.
pub fn sought() -> Option<Place>
    ensures { result ≡ Some (record { distance = 1; position = 1; number = 4 }) }
{
    let entries = [
        column('a'),
        column('b'),
        column('b'),
        column('i'),
        column('s'),
        column('i'),
    ];
    let starts = [2, 3, 5];
    find(&entries, &starts, TEXT, b"a")
}

#[cfg(test)]
mod tests {
    use super::*;
    use schema::same_schema;

    fn same(left: &[char], right: &[char]) -> bool {
        same_schema(&schema(0, left), TEXT, &schema(0, right), TEXT)
    }

    fn refused(number: u8, byte: u32) -> Result<usize, Refused> {
        Err(Refused { number, byte })
    }

    #[test]
    fn columns_agree_by_domain_and_by_name_unless_one_has_none(rt: HostRuntime) {
        assert!(rt; same(&['a', 'b'], &['a', 'b']));
        assert!(rt; same(&['a', 'b'], &['i', 'i']));
        assert!(rt; same(&['i'], &['b']));
        assert!(rt; !same(&['a'], &['b']));
        assert!(rt; !same(&['a'], &['s']));
        assert!(rt; !same(&['i'], &['n']));
        assert!(rt; !same(&['a'], &['a', 'b']));
        assert!(rt; same(&[], &[]));
    }

    #[test]
    fn a_join_has_room_for_all_columns_and_no_common_name(rt: HostRuntime) {
        let both = joined(&schema(0, &['a']), &schema(0, &['b', 'i']));
        assert!(rt; both == Ok(3));
        let full = joined(&schema(COLUMNS - 1, &[]), &schema(0, &['a']));
        assert!(rt; full == Ok(COLUMNS));
        let crowded = joined(&schema(COLUMNS - 1, &['a']), &schema(0, &['a']));
        assert!(rt; crowded == refused(35, 7));
        let common = joined(&schema(0, &['i', 'a']), &schema(0, &['b', 's']));
        assert!(rt; common == refused(31, 7));
        let nameless = joined(&schema(1, &[]), &schema(1, &[]));
        assert!(rt; nameless == Ok(2));
    }

    #[test]
    fn an_extension_asks_for_room_before_it_asks_for_a_new_name(rt: HostRuntime) {
        assert!(rt; extended(&schema(0, &['b'])) == Ok(2));
        assert!(rt; extended(&schema(COLUMNS - 1, &[])) == Ok(COLUMNS));
        let old = extended(&schema(0, &['b', 's']));
        assert!(rt; old == refused(31, 9));
        let full = extended(&schema(COLUMNS - 1, &['a']));
        assert!(rt; full == refused(35, 7));
    }

    #[test]
    fn the_nearest_list_that_has_the_name_answers(rt: HostRuntime) {
        let place = Place {
            distance: 1,
            position: 1,
            number: 4,
        };
        assert!(rt; sought() == Some(place));
    }
}
