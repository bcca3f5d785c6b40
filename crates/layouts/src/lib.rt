// No function: tables by any layout. Whatever a call answers is settled by the rows of its table, wherever their words stand.
#![tactic(auto)]
