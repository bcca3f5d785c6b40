// What is demanded of all calls, the limit of nesting and rows kept as columns, as laws over the definitions: see proofs/. What the pages cite: see specs/.
#![tactic(auto)]
