// How long each section of a block's account is at most. The laws are in proofs/; there is no code here.

#![tactic(auto)]
