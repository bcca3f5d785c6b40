// What is demanded of job files: laws, and what the page of E2 says of a report. No function.
#![tactic(auto)]
