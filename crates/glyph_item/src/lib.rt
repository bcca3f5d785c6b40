// What the functions that read a glyph object share: their answer. What they promise is in specs/Contract.antt.
#![tactic(auto)]

// What reading a glyph object answers.
pub type Step = item::Step<glyph::Refusal>;
