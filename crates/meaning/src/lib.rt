// The types of constraint trees, datum trees and verdicts. The definitions stand in specs/.
#![tactic(auto)]

// The flags of existence: 0..0, 0..1 and 1..1.
pub const PROHIBITED: u8 = 0;

pub const OPTIONAL: u8 = 1;

pub const REQUIRED: u8 = 2;
