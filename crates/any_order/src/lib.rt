// The same calls in another order: what each is answered, the loads that they leave, and what a search of these finds (RULES 15.2). There
// is no code here.
#![tactic(auto)]
