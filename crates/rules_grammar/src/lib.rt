// The rules of document 01 a second time, as relations. The definitions stand in specs/.
#![tactic(auto)]
