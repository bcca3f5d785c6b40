// How often a text occurs among texts, and that the repeated texts are those that occur at least twice, proved in proofs/: no function.
#![tactic(auto)]
