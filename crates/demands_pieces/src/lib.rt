// Laws of messages in pieces, by the functions and by the exported calls: see proofs/. No function.
#![tactic(auto)]
