// What is demanded, as pages of statements: see specs/. No function.
#![tactic(auto)]
