// A search as a list of events, joins tested and journeys offered, and how far it goes within a limit on joins. There is no code here.
#![tactic(auto)]
