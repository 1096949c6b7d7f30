// What a script means: the lines that it yields and how it ends. Definitions and laws; nothing here runs.
// specs/Values.antt has equality, order and arithmetic, specs/Evaluation.antt expressions, specs/Meaning.antt statements.
#![tactic(auto)]

ghost use Rattle.meaning.specs.Laws.{MorePassesAddLines, EndingsStay, PassesAreCounted, UpdatesHaveNoRepeats};

// The laws of the meaning: more passes only add lines; once it ends otherwise than for want of a pass, it ends so for every larger
// number; it lacks a pass only where all are used; an updated table has no row twice.
pub fn meaning_stands()
    ensures lines { MorePassesAddLines }
    ensures endings { EndingsStay }
    ensures passes { PassesAreCounted }
    ensures updates { UpdatesHaveNoRepeats }
{}
