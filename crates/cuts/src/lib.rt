// That a message in pieces is answered as the whole is, however it is cut, proved in proofs/: no function.
#![tactic(auto)]
