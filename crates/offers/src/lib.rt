// The journeys that a search offers, which journeys are admitted, and demands 2 and 3 over an abstract machine.
// There is no code here. specs/ has the definitions and the claims, proofs/ their proofs.
#![tactic(auto)]
