// Theorems on the refusals, in proofs/; there is no code here.
#![tactic(auto)]
