// How an accepted call's answer is told in one line: `accepted`, or a number. A refusal is told by its fault.
ghost use Rattle.std.specs.Prelude.{Some, Ok};
ghost use Rattle.store.specs.Shown.{answer_line};

use crate::calls::Answer;
use std::fmt;

impl fmt::Display for Answer {
    ghost output = { λ x. Some (answer_line (Ok x)) };

    fn fmt<W: fmt::Write>(&self, f: &mut fmt::Formatter<W>) -> fmt::Result {
        match self {
            Answer::Accepted => write!(f, "accepted"),
            Answer::Number(number) => write!(f, "{number}"),
            Answer::Value(value) => write!(f, "{value}"),
        }
    }
}
