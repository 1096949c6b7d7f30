// Trials of the reader of whole texts: each text with what is expected of it. Tests only.
// The expected places come from a small reader of its own, written apart from this one.
#![tactic(auto)]

ghost use Rattle.std.specs.Prelude.{◌≡◌, ◌↔◌, IsTrue, codes};
ghost use Rattle.schema.specs.Columns.{schema_of};
ghost use Rattle.listing.specs.Whole.{table_reply};
ghost use Rattle.listing_trials.specs.Trials.{columns, refusal_of, told, Holds, FirstWrong};

use domain::Domain;
use fault::{Fault, Layer};
use listing::read_table;
use schema::{Attribute, Schema};
use words::Span;

// Which layer refuses a text, and at which byte.
#[derive(Clone, Copy, Debug, PartialEq, Eq)]
pub struct Refusal {
    pub layer: Layer,
    pub byte: usize,
}

// A text is answered by its number of rows, or refused.
#[derive(Clone, Copy)]
pub struct Trial<'a> {
    pub text: &'a [u8],
    pub expected: Result<usize, Refusal>,
}

// The schema `(a:i,b:s)` over the script `ab`.
fn two_columns() -> Schema
    ensures { schema_of (codes "ab") result ≡ columns }
{
    let first = Attribute {
        name: Some(Span { start: 0, len: 1 }),
        domain: Domain::Integer,
    };
    let second = Attribute {
        name: Some(Span { start: 1, len: 1 }),
        domain: Domain::String,
    };
    let none = Schema::empty();
    none.with(first)
        .and_then(|one| one.with(second))
        .unwrap_or(none)
}

impl From<Fault> for Refusal {
    ghost from_gives = { λ fault refusal. refusal ≡ refusal_of fault };

    fn from(fault: Fault) -> Refusal {
        Refusal {
            layer: fault.rule.layer(),
            byte: fault.place.byte as usize,
        }
    }
}

// How a text is answered.
fn answer(text: &[u8]) -> Result<usize, Refusal>
    ensures { result ≡ told (table_reply columns text.now) }
{
    Ok(read_table(text, &two_columns(), b"ab")?)
}

// Whether the text is answered as expected.
pub fn holds(trial: Trial<'_>) -> bool
    ensures { IsTrue result ↔ Holds trial.entry }
{
    answer(trial.text) == trial.expected
}

// The first trial that does not hold.
pub fn first_wrong(trials: &[Trial<'_>]) -> Option<usize>
    ensures { FirstWrong trials.now result }
{
    trials.iter().position(|trial| !holds(*trial))
}

#[cfg(test)]
mod tests {
    use super::*;

    fn refused(layer: Layer, byte: usize) -> Result<usize, Refusal> {
        Err(Refusal { layer, byte })
    }

    #[test]
    fn every_byte_replaced_dropped_and_doubled_is_refused_at_its_place(rt: HostRuntime) {
        let trials = [
            Trial {
                text: b"!a:i,b:s)\n(3,\"x\")\nend\n",
                expected: refused(Layer::Heading, 0),
            },
            Trial {
                text: b"a:i,b:s)\n(3,\"x\")\nend\n",
                expected: refused(Layer::Heading, 0),
            },
            Trial {
                text: b"((a:i,b:s)\n(3,\"x\")\nend\n",
                expected: refused(Layer::Heading, 1),
            },
            Trial {
                text: b"(!:i,b:s)\n(3,\"x\")\nend\n",
                expected: refused(Layer::Heading, 1),
            },
            Trial {
                text: b"(:i,b:s)\n(3,\"x\")\nend\n",
                expected: refused(Layer::Heading, 1),
            },
            Trial {
                text: b"(aa:i,b:s)\n(3,\"x\")\nend\n",
                expected: refused(Layer::Heading, 2),
            },
            Trial {
                text: b"(a!i,b:s)\n(3,\"x\")\nend\n",
                expected: refused(Layer::Heading, 2),
            },
            Trial {
                text: b"(ai,b:s)\n(3,\"x\")\nend\n",
                expected: refused(Layer::Heading, 2),
            },
            Trial {
                text: b"(a::i,b:s)\n(3,\"x\")\nend\n",
                expected: refused(Layer::Heading, 3),
            },
            Trial {
                text: b"(a:!,b:s)\n(3,\"x\")\nend\n",
                expected: refused(Layer::Heading, 3),
            },
            Trial {
                text: b"(a:,b:s)\n(3,\"x\")\nend\n",
                expected: refused(Layer::Heading, 3),
            },
            Trial {
                text: b"(a:ii,b:s)\n(3,\"x\")\nend\n",
                expected: refused(Layer::Heading, 4),
            },
            Trial {
                text: b"(a:i!b:s)\n(3,\"x\")\nend\n",
                expected: refused(Layer::Heading, 4),
            },
            Trial {
                text: b"(a:ib:s)\n(3,\"x\")\nend\n",
                expected: refused(Layer::Heading, 4),
            },
            Trial {
                text: b"(a:i,,b:s)\n(3,\"x\")\nend\n",
                expected: refused(Layer::Heading, 5),
            },
            Trial {
                text: b"(a:i,!:s)\n(3,\"x\")\nend\n",
                expected: refused(Layer::Heading, 5),
            },
            Trial {
                text: b"(a:i,:s)\n(3,\"x\")\nend\n",
                expected: refused(Layer::Heading, 5),
            },
            Trial {
                text: b"(a:i,bb:s)\n(3,\"x\")\nend\n",
                expected: refused(Layer::Heading, 6),
            },
            Trial {
                text: b"(a:i,b!s)\n(3,\"x\")\nend\n",
                expected: refused(Layer::Heading, 6),
            },
            Trial {
                text: b"(a:i,bs)\n(3,\"x\")\nend\n",
                expected: refused(Layer::Heading, 6),
            },
            Trial {
                text: b"(a:i,b::s)\n(3,\"x\")\nend\n",
                expected: refused(Layer::Heading, 7),
            },
            Trial {
                text: b"(a:i,b:!)\n(3,\"x\")\nend\n",
                expected: refused(Layer::Heading, 7),
            },
            Trial {
                text: b"(a:i,b:)\n(3,\"x\")\nend\n",
                expected: refused(Layer::Heading, 7),
            },
            Trial {
                text: b"(a:i,b:ss)\n(3,\"x\")\nend\n",
                expected: refused(Layer::Heading, 8),
            },
            Trial {
                text: b"(a:i,b:s!\n(3,\"x\")\nend\n",
                expected: refused(Layer::Heading, 8),
            },
            Trial {
                text: b"(a:i,b:s\n(3,\"x\")\nend\n",
                expected: refused(Layer::Heading, 8),
            },
            Trial {
                text: b"(a:i,b:s))\n(3,\"x\")\nend\n",
                expected: refused(Layer::Heading, 9),
            },
            Trial {
                text: b"(a:i,b:s)!(3,\"x\")\nend\n",
                expected: refused(Layer::Heading, 9),
            },
            Trial {
                text: b"(a:i,b:s)(3,\"x\")\nend\n",
                expected: refused(Layer::Heading, 9),
            },
            Trial {
                text: b"(a:i,b:s)\n\n(3,\"x\")\nend\n",
                expected: refused(Layer::Row, 10),
            },
            Trial {
                text: b"(a:i,b:s)\n!3,\"x\")\nend\n",
                expected: refused(Layer::Row, 10),
            },
            Trial {
                text: b"(a:i,b:s)\n3,\"x\")\nend\n",
                expected: refused(Layer::Row, 10),
            },
            Trial {
                text: b"(a:i,b:s)\n((3,\"x\")\nend\n",
                expected: refused(Layer::Cell, 11),
            },
            Trial {
                text: b"(a:i,b:s)\n(!,\"x\")\nend\n",
                expected: refused(Layer::Cell, 11),
            },
            Trial {
                text: b"(a:i,b:s)\n(,\"x\")\nend\n",
                expected: refused(Layer::Cell, 11),
            },
            Trial {
                text: b"(a:i,b:s)\n(33,\"x\")\nend\n",
                expected: Ok(1),
            },
            Trial {
                text: b"(a:i,b:s)\n(3!\"x\")\nend\n",
                expected: refused(Layer::Row, 12),
            },
            Trial {
                text: b"(a:i,b:s)\n(3\"x\")\nend\n",
                expected: refused(Layer::Row, 12),
            },
            Trial {
                text: b"(a:i,b:s)\n(3,,\"x\")\nend\n",
                expected: refused(Layer::Cell, 13),
            },
            Trial {
                text: b"(a:i,b:s)\n(3,!x\")\nend\n",
                expected: refused(Layer::Cell, 13),
            },
            Trial {
                text: b"(a:i,b:s)\n(3,x\")\nend\n",
                expected: refused(Layer::Cell, 13),
            },
            Trial {
                text: b"(a:i,b:s)\n(3,\"\"x\")\nend\n",
                expected: refused(Layer::Row, 15),
            },
            Trial {
                text: b"(a:i,b:s)\n(3,\"!\")\nend\n",
                expected: Ok(1),
            },
            Trial {
                text: b"(a:i,b:s)\n(3,\"\")\nend\n",
                expected: Ok(1),
            },
            Trial {
                text: b"(a:i,b:s)\n(3,\"xx\")\nend\n",
                expected: Ok(1),
            },
            Trial {
                text: b"(a:i,b:s)\n(3,\"x!)\nend\n",
                expected: refused(Layer::Cell, 17),
            },
            Trial {
                text: b"(a:i,b:s)\n(3,\"x)\nend\n",
                expected: refused(Layer::Cell, 16),
            },
            Trial {
                text: b"(a:i,b:s)\n(3,\"x\"\")\nend\n",
                expected: refused(Layer::Row, 16),
            },
            Trial {
                text: b"(a:i,b:s)\n(3,\"x\"!\nend\n",
                expected: refused(Layer::Row, 16),
            },
            Trial {
                text: b"(a:i,b:s)\n(3,\"x\"\nend\n",
                expected: refused(Layer::Row, 16),
            },
            Trial {
                text: b"(a:i,b:s)\n(3,\"x\"))\nend\n",
                expected: refused(Layer::Row, 17),
            },
            Trial {
                text: b"(a:i,b:s)\n(3,\"x\")!end\n",
                expected: refused(Layer::Row, 17),
            },
            Trial {
                text: b"(a:i,b:s)\n(3,\"x\")end\n",
                expected: refused(Layer::Row, 17),
            },
            Trial {
                text: b"(a:i,b:s)\n(3,\"x\")\n\nend\n",
                expected: refused(Layer::Row, 18),
            },
            Trial {
                text: b"(a:i,b:s)\n(3,\"x\")\n!nd\n",
                expected: refused(Layer::Row, 18),
            },
            Trial {
                text: b"(a:i,b:s)\n(3,\"x\")\nnd\n",
                expected: refused(Layer::Row, 18),
            },
            Trial {
                text: b"(a:i,b:s)\n(3,\"x\")\neend\n",
                expected: refused(Layer::Row, 19),
            },
            Trial {
                text: b"(a:i,b:s)\n(3,\"x\")\ne!d\n",
                expected: refused(Layer::Row, 19),
            },
            Trial {
                text: b"(a:i,b:s)\n(3,\"x\")\ned\n",
                expected: refused(Layer::Row, 19),
            },
            Trial {
                text: b"(a:i,b:s)\n(3,\"x\")\nennd\n",
                expected: refused(Layer::Row, 20),
            },
            Trial {
                text: b"(a:i,b:s)\n(3,\"x\")\nen!\n",
                expected: refused(Layer::Row, 20),
            },
            Trial {
                text: b"(a:i,b:s)\n(3,\"x\")\nen\n",
                expected: refused(Layer::Row, 20),
            },
            Trial {
                text: b"(a:i,b:s)\n(3,\"x\")\nendd\n",
                expected: refused(Layer::Row, 21),
            },
            Trial {
                text: b"(a:i,b:s)\n(3,\"x\")\nend!",
                expected: refused(Layer::Row, 21),
            },
            Trial {
                text: b"(a:i,b:s)\n(3,\"x\")\nend",
                expected: refused(Layer::Row, 21),
            },
            Trial {
                text: b"(a:i,b:s)\n(3,\"x\")\nend\n\n",
                expected: refused(Layer::Row, 22),
            },
        ];
        assert_eq!(rt; first_wrong(&trials), None);
    }

    #[test]
    fn limits_of_values_and_ends_of_texts_are_told(rt: HostRuntime) {
        let trials = [
            Trial {
                text: b"",
                expected: refused(Layer::Heading, 0),
            },
            Trial {
                text: b"(a:i,b:s)",
                expected: refused(Layer::Heading, 9),
            },
            Trial {
                text: b"(a:i,b:s)\r\nend\n",
                expected: refused(Layer::Heading, 9),
            },
            Trial {
                text: b"(?:i,?:s)\nend\n",
                expected: Ok(0),
            },
            Trial {
                text: b"(a:i,b:s)\n(-9223372036854775808,\"\")\nend\n",
                expected: Ok(1),
            },
            Trial {
                text: b"(a:i,b:s)\n(-9223372036854775809,\"\")\nend\n",
                expected: refused(Layer::Cell, 30),
            },
            Trial {
                text: b"(a:i,b:s)\n(9223372036854775807,\"\")\nend\n",
                expected: Ok(1),
            },
            Trial {
                text: b"(a:i,b:s)\n(9223372036854775808,\"\")\nend\n",
                expected: refused(Layer::Cell, 29),
            },
            Trial {
                text: b"(a:i,b:s)\n(-0,\"\")\nend\n",
                expected: refused(Layer::Cell, 12),
            },
            Trial {
                text: b"(a:i,b:s)\n(01,\"\")\nend\n",
                expected: refused(Layer::Cell, 12),
            },
            Trial {
                text: b"(a:i,b:s)\n(0,\"\")\n(0,\"\")\nend\n",
                expected: Ok(2),
            },
            Trial {
                text: b"(a:i,b:s)\nend",
                expected: refused(Layer::Row, 13),
            },
            Trial {
                text: b"(a:i,b:s)\nend\n\n",
                expected: refused(Layer::Row, 14),
            },
            Trial {
                text: b"(a:i,b:s)\n(1,\"a\tb\")\nend\n",
                expected: refused(Layer::Cell, 15),
            },
            Trial {
                text: b"(a:i,b:s)\n(+1,\"\")\nend\n",
                expected: refused(Layer::Cell, 11),
            },
        ];
        assert_eq!(rt; first_wrong(&trials), None);
    }
}
