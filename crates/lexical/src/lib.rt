// No code: specs/ says what the texts of a Double and of a DateTime are.
#![tactic(auto)]
