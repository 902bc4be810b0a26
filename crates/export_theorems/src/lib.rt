// Theorems on the exports of the lean netlist, in proofs/; there is no code here.
#![tactic(auto)]
