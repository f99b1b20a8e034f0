// The three demands, as relations over what was handed in, and their proofs. Nothing is computed here: the contract of `demands()` cites
// what is proved.
#![tactic(auto)]

ghost use Rattle.comparison.specs.Proved.{Proved};

// The demands are met, their premises can be, and the starred instances hold: whoever calls this has all of it.
pub fn demands()
    ensures { Proved }
{}
