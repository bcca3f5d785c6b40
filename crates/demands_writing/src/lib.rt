// Laws of the writer and the written form, for the pages of crate demands: see proofs/.
#![tactic(auto)]
