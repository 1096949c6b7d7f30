// The machine: what one instruction does to a run, as definitions. Nothing here runs; the run's code is held to them later.
// specs/State.antt has the state, specs/Steps.antt the instructions, specs/Runs.antt a run to its end.
#![tactic(auto)]

ghost use Rattle.machine.specs.Specimens.{SpecimensStand, RowsFallTogether, CellsRunOut};

// The specimens: from the text to the last line, computed on the definitions of every layer. An update makes two rows one; a third row
// does not fit two cells.
pub fn specimens_stand()
    ensures table { SpecimensStand }
    ensures together { RowsFallTogether }
    ensures cells { CellsRunOut }
{}
