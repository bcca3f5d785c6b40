// What texts are: the definitions in specs/ and their laws in proofs/. The functions are in the crates above: no function here.
#![tactic(auto)]
