// What is proved of the verdicts of crate `verdict`, of every list of steps. There is no code here.
#![tactic(auto)]
