// The tutor's question, from the bytes that are read to the bytes that are written. Nothing is computed here.
#![tactic(auto)]

ghost use Rattle.tutor.specs.Witness.{Proved};

// The answer holds of every load file, and one is there of which it speaks: whoever calls this has both.
pub fn tutors_answer()
    ensures { Proved }
{}
