// No code: a text behind a card's key is E5's lookup in the card, and only if its Struct lacks the key, in the defaults. proofs/ has the argument.
#![tactic(auto)]
