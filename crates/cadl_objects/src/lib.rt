// Constraint text: existence, and what objects and attributes begin with. The definitions stand in specs/.
#![tactic(auto)]

pub mod existence;
pub mod heads;
