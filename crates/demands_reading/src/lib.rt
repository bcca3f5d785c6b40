// Laws of reading, of the grammar and of the answers that `reader::read` promises, for the pages of crate demands; and a table of cases: see specs/.
#![tactic(auto)]
