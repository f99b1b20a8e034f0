// The table of calls: its cuts to a smaller horizon, and the call step on it.
#![tactic(auto)]

mod cuts;
pub mod step;
