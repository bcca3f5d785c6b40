// What is promised of writing glyph messages, as statements over the definitions: see specs/.
#![tactic(auto)]
