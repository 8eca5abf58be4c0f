// The values that literals and words spell. The definitions stand in specs/.
#![tactic(auto)]

pub mod calendar;
pub mod dates;
pub mod durations;
pub mod integers;
pub mod patterns;
mod shapes;
pub mod times;
pub mod words;
