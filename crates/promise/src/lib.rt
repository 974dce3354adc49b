// The promises over whole runs of calls. They are theorems over the calls' own definitions, in specs/ and proofs/; there is no code.
#![tactic(auto)]
