// That the tree which a table's rows tell is the one that they realise: theorems. See proofs/.
#![tactic(auto)]
