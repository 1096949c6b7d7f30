// The plan of a script: its tree with names resolved and columns inferred. Definitions; code and meaning rest on them.
// specs/Plan.antt has the plans, specs/Planning.antt says which plan a tree has.
#![tactic(auto)]

ghost use Rattle.plan.specs.Laws.{PlansKeepTypes};

// The law of planning: the plan of a typed expression has its type.
pub fn plan_stands()
    ensures { PlansKeepTypes }
{}
