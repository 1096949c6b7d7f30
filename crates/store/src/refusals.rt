// How a store refuses: the rule alone, since a store knows no text.
ghost use Rattle.std.specs.Prelude.{◌≡◌};
ghost use Rattle.store.specs.Meaning.{refused_by};

use fault::{Fault, Place, Rule};

pub fn refuse(rule: Rule) -> Fault
    ensures { result ≡ refused_by rule }
{
    Place::NOWHERE.fault(rule)
}
