// What glyph objects mean, a plain dict's pair order aside: objects that mean the same have one written form. See specs/ and proofs/.
#![tactic(auto)]
