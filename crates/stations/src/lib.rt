// No function: what two stations do on one table, by the promises of their calls.
#![tactic(auto)]
