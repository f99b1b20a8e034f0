// Laws that know nothing of timetables: lists, folds, packing, sorting, whole numbers, floats within a bound.
// There is no code here. specs/ has the definitions, proofs/ their laws.
#![tactic(auto)]
