// That the written form is the draft's, settled by the meaning and shortest, proved in proofs/: no function.
#![tactic(auto)]
