// The large theorems about the definitions of `meaning` alone. They are in proofs/; there is no code here.

#![tactic(auto)]
