// All faults of a text, of which the least is told. The definitions stand in specs/.
#![tactic(auto)]
