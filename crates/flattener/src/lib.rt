// The flattener: start, seed a position, push a block, close.
#![tactic(auto)]

pub mod call;
pub mod seed;
pub mod start;
