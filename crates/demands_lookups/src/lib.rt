// What is demanded of looking up members, with job defaults and through an index, as statements over the definitions: see specs/.
#![tactic(auto)]
