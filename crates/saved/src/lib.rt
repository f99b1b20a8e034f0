// A load that was written is read as it was (RULES 13.4, 13.5). Nothing is computed here.
#![tactic(auto)]

ghost use Rattle.saved.specs.Proved.{Proved};

// It is read back, each load has one file, and the premises can be met: whoever calls this has all of it.
pub fn read_back()
    ensures { Proved }
{}
