// What is demanded of writing with a plan: document 02's words for the page of E13, and laws. No function.
#![tactic(auto)]
