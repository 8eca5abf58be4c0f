// The leaves of constraint text: a leaf's items are left in a scratch that the caller lends. The definitions stand in specs/.
#![tactic(auto)]

pub mod leaves;
mod ranges;
mod room;
pub mod spans;
mod strings;
