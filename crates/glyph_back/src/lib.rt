// The written form of a glyph object is derived by its edition's grammar, and means the same: proofs. See specs/ and proofs/.
#![tactic(auto)]
