// What a search finds within a limit on joins, what it says of itself, and the margin of its answer for second 0. There is no code here.
#![tactic(auto)]
