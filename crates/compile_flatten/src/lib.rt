// A tree as a table. The definitions stand in specs/.
#![tactic(auto)]
