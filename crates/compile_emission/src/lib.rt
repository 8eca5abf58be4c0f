// Records, bytes and names of a constraint text, put into buffers that the caller lends. The definitions stand in specs/.
#![tactic(auto)]

pub mod heads;
pub mod leaves;
mod lists;
pub mod pool;
pub mod rows;
pub mod spots;
