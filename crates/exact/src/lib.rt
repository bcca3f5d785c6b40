// That reading is the draft's grammar, proved in proofs/: no function.
#![tactic(auto)]
