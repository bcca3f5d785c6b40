// No code: what a lookup answers is what the draft derives. specs/ says what a message means to one who looks a member up, proofs/ has the argument.
#![tactic(auto)]
