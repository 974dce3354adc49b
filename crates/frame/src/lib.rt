// What a change of a map leaves: laws alone, no code.
#![tactic(auto)]
