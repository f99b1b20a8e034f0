// What a load that steps make has beside soundness, so that its records can be written and handed in again. `saved` rests on it.
// There is no code here. specs/ has the definitions and the claims, proofs/ their proofs.
#![tactic(auto)]
