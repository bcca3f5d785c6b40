// That reading glyph messages is their grammar, and grows with its limits, proved in proofs/; specs/ has what a refusal says of its place. No function.
#![tactic(auto)]
