// Typing: which scripts are right, and which check is the first to fail.
// Definitions and their theorems; the code that follows them over nodes is the checker.
#![tactic(auto)]

ghost use Rattle.typing.specs.Promise.{ExpressionsExact, StatementsExact, ProgramsExact};
ghost use Rattle.typing.specs.Nesting.{WidthsFit, NeverFull};
ghost use Rattle.typing.specs.Specimens.{SpecimensStand};

// The theorems of the definitions.
pub fn typing_stands()
    ensures expressions { ExpressionsExact }
    ensures statements { StatementsExact }
    ensures programs { ProgramsExact }
    ensures widths { WidthsFit }
    ensures never_full { NeverFull }
    ensures specimens { SpecimensStand }
{}
