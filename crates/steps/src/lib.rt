// The steps that alter a load as one type, lists of them, and demands 1 to 3 through the load. There is no code here.
#![tactic(auto)]
