// What writing glyph tables promises, of tables and of the writer's own answer and output: theorems. See specs/.
#![tactic(auto)]
