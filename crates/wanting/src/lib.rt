// How many bytes a message that was refused with 1 wants: the definition and its laws, and no function.
#![tactic(auto)]
