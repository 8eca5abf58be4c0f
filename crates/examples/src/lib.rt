// Tables of examples that the checker computes from the definitions of the layers below. They stand in proofs/.
#![tactic(auto)]
