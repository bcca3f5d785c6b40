// That a plan is taken exactly if its message reads with the meaning, and that prices prove it shortest, proved in proofs/: no function.
#![tactic(auto)]
