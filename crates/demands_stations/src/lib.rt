// What is demanded of calls for a station, as laws over the definitions: see proofs/. What is told in numbers, which the pages cite: see specs/.
#![tactic(auto)]
