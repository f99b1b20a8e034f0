// Rides and journeys as lists over calls of any type. There is no code here: specs/ has the definitions, proofs/ what is proved of them.
#![tactic(auto)]
