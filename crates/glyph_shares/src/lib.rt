// What is promised of glyph messages for two stations on one table, as statements over the definitions: see specs/.
#![tactic(auto)]
