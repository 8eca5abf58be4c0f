// The rows of a tape as the walk meets them: blocks, members by name, and the memo of what is known of rows.
#![tactic(auto)]

pub mod inputs;
pub mod members;
pub mod memo;
