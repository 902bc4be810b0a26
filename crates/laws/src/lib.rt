// The laws stand in proofs/; there is no code here.
#![tactic(auto)]
