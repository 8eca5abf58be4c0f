// The three demands. They stand in specs/.
#![tactic(auto)]
