// Literals and intervals of constraint text. The definitions stand in specs/.
#![tactic(auto)]

pub mod ends;
pub mod literals;
