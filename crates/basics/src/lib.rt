// Definitions and laws that all other crates stand on. They are in specs/ and proofs/; there is no code here.

#![tactic(auto)]
