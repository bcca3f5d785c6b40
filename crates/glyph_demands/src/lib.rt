// What is promised of reading glyph messages, as statements over the definitions: see specs/.
#![tactic(auto)]
