// Tables: byte order, records, the check and names. The definitions stand in specs/.
#![tactic(auto)]

pub mod check;
pub mod copying;
pub mod layout;
pub mod names;
pub mod order;
pub mod records;
mod rules;
pub mod writing;
