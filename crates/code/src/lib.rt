// Code: the instructions of a script, and how a plan becomes code. Definitions and laws; the generator in code is to come.
// specs/Instructions.antt has the fifty instructions, specs/Generation.antt the schemes.
#![tactic(auto)]

ghost use Rattle.code.specs.Laws.{JumpsLand};

// The law of the schemes: every jump and every gap of a script lands on an instruction of the script.
pub fn code_stands()
    ensures { JumpsLand }
{}
